//! The program `row_runner`: it makes one public call for each line of standard input, and writes
//! what the call answers as one line of standard output.
//!
//! No function has a clause. What a call answers is compared with the rows of `checks/rows`.
#![tactic(auto)]

mod actions;
mod admins;
mod asking;
mod authority;
mod calls;
mod clients;
mod commands;
mod counts;
mod desk;
mod drafts;
mod entries;
mod faults;
mod handshakes;
mod ids;
mod keyfiles;
mod messages;
mod model;
mod numbers;
mod pairs;
mod pieces;
mod processes;
mod questions;
mod row;
mod rule_index;
mod rules;
mod scenario;
mod sending;
mod streams;
mod tables;
mod words;

use real_outside::ReadSource;
use source_buffer::{LineRead, LineReader};
use std::process::ExitCode;

/// The greatest number of bytes of a line.
const MAX_LINE: usize = 1 << 26;

fn main(rt: HostRuntime) -> ExitCode {
    let mut input = ReadSource::new(rt.reader());
    let Ok(mut reader) = LineReader::new(rt.alloc()) else {
        return ExitCode::from(70);
    };
    let mut line = Vec::new(rt.alloc());
    for _ in 0..u64::MAX {
        match reader.next_line(&mut input, &mut line, MAX_LINE) {
            LineRead::Line | LineRead::Last => {}
            LineRead::End => break,
            _ => return ExitCode::from(3),
        }
        let answer = calls::answer(rt.alloc(), line.as_slice());
        if println!(rt; "{answer}").is_err() {
            return ExitCode::from(4);
        }
    }
    ExitCode::from(0)
}
