// Folders of tests, and stations over sockets in them.
use rand::rngs::StdRng;
use rand::{RngExt, make_rng};
use real_outside::SocketStation;
use std::env::{self, Env};
use std::fs::{self, File, Files};
use std::io;
use std::net::Net;
use std::random::RandomSource;
use std::time::Clock;

/// A station of the system.
pub fn socket_station<R: Net + Files<File = File> + Clock + RandomSource + AllocGlobal + Sync>(
    rt: &R,
) -> io::Result<SocketStation<'_, R>> {
    Ok(SocketStation::new(rt, rt.alloc(), make_rng(rt)?))
}

/// A new folder among those for files that go.
pub fn new_folder<R: Files + Env + RandomSource + AllocGlobal>(rt: &R) -> io::Result<String> {
    let mut words: StdRng = make_rng(rt)?;
    let word: u64 = words.random();
    let place = env::temp_dir(rt)?;
    let place = place.as_str();
    let folder = format!(in rt.alloc(); "{place}/polkit-{word:016x}")?;
    fs::create_dir(rt, folder.as_str())?;
    Ok(folder)
}
