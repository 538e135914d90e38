// What the loader is told.
ghost use Rattle.std.specs.Prelude.{◌≡◌, count_by, position};
ghost use Rattle.std.specs.List.{before_first};
ghost use Rattle.serve_loader.specs.Wanted.{asks_load, is_stop_wanted, wanted_in, wants_stop};

use authority_model::{Message, Output};

/// Whether an output tells the loader to stop.
fn is_stop_wanted(output: &Output) -> bool
    ensures wanted { result ≡ is_stop_wanted output.now }
{
    matches!(output.message, Message::StopWanted)
}

/// Where the first StopWanted stands among some outputs.
fn stop_place(outputs: &[Output]) -> Option<usize>
    ensures first { result ≡ position is_stop_wanted outputs.now }
{
    outputs.iter().position(|output| is_stop_wanted(output))
}

/// The outputs before the first StopWanted.
fn before_stop(outputs: &[Output]) -> &[Output]
    ensures before { result.now ≡ before_first is_stop_wanted outputs.now }
{
    match stop_place(outputs) {
        Some(end) => &outputs[..end],
        None => outputs,
    }
}

/// How many LoadWanted stand among some outputs.
fn loads_among(outputs: &[Output]) -> usize
    ensures loads { result ≡ count_by (λ o. asks_load o.message) outputs.now }
{
    outputs
        .iter()
        .filter(|output| matches!(output.message, Message::LoadWanted))
        .count()
}

/// How many LoadWanted stand before the first StopWanted.
pub(crate) fn wanted_in(outputs: &[Output]) -> usize
    ensures wanted { result ≡ wanted_in outputs.now }
{
    loads_among(before_stop(outputs))
}

/// Whether StopWanted stands among some outputs.
pub(crate) fn wants_stop(outputs: &[Output]) -> bool
    ensures wanted { result ≡ wants_stop outputs.now }
{
    outputs.iter().any(|output| is_stop_wanted(output))
}
