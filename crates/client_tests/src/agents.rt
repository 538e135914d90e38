// Agents over links in memory: what the authority and the helper's door give, and what comes of it, also
// where an object fails at a call, at each call in turn, and at two.
use crate::doors::{Faults, NONE, TwoDoors, joined, link, output, texts, two_doors, written};
use crate::ends::Ended;
use crate::messages::Part;
use memory_outside::{ByteSink, ListTree};
use pk_outside::TreeFile;
use pk_types::{ByteList, List, NoMemory, TextList};
use script_agent::{AgentStatus, script_agent};
use std::alloc::Global;
use std::test::Fail;
use test_values::{one, text};

/// An agent's run.
#[derive(Clone, Copy)]
struct Row {
    shows: &'static str,
    door_at: &'static str,
    door: &'static [Part],
    helper_at: &'static str,
    helper: &'static [Part],
    rules_at: &'static str,
    rules: &'static str,
    count: &'static str,
    faults: Faults,
    status: AgentStatus,
    code: u8,
    printed: &'static str,
    sent: &'static [Part],
    asked: &'static [Part],
}

/// One challenge that is answered for a user.
const ONE: Row = Row {
    shows: "one challenge is answered for a user",
    door_at: "1000:/u",
    door: &[Part::Accepts, Part::DoneTo1, Part::Begin2],
    helper_at: "/h",
    helper: &[Part::Accepts, Part::DoneTo1],
    rules_at: "/rules",
    rules: "a.* user:1000",
    count: "1",
    faults: NONE,
    status: AgentStatus::Done,
    code: 0,
    printed: "a.self return\n",
    sent: &[
        Part::AuthAlice,
        Part::BeginLine,
        Part::Register,
        Part::Return2To2,
    ],
    asked: &[Part::AuthRoot, Part::BeginLine, Part::Respond1],
};

/// What an agent has sent that is registered, or waits for that.
const REGISTERED: &[Part] = &[Part::AuthAlice, Part::BeginLine, Part::Register];

/// A run that ends before anything was dialled.
const UNDIALLED: Row = Row {
    code: 127,
    printed: "",
    sent: &[],
    asked: &[],
    ..ONE
};

/// A run that ends behind the registration.
const UNANSWERED: Row = Row {
    code: 127,
    printed: "",
    sent: REGISTERED,
    asked: &[],
    ..ONE
};

/// A run at whose door of the authority nobody listens.
const UNHEARD: Row = Row {
    shows: "nobody listens at the authority's door",
    door_at: "1000:/nowhere",
    status: AgentStatus::StationFault,
    ..UNDIALLED
};

/// A run at whose helper's door nobody listens.
const UNHELPED: Row = Row {
    shows: "nobody listens at the helper's door",
    helper_at: "/nowhere",
    status: AgentStatus::StationFault,
    ..UNANSWERED
};

/// A run whose output fails.
const UNPRINTED: Row = Row {
    shows: "the output fails",
    faults: Faults { output: 1, ..NONE },
    status: AgentStatus::WriteFault,
    code: 127,
    printed: "",
    ..ONE
};

/// Runs with an object that fails.
fn failing() -> &'static [Row] {
    &[
        ONE,
        Row {
            shows: "the tree fails",
            faults: Faults { tree: 1, ..NONE },
            status: AgentStatus::TreeFault,
            ..UNDIALLED
        },
        UNHEARD,
        UNHELPED,
        Row {
            shows: "a read fails",
            faults: Faults { read: 1, ..NONE },
            status: AgentStatus::StationFault,
            sent: &[Part::AuthAlice],
            ..UNANSWERED
        },
        Row {
            shows: "the answer cannot be written",
            faults: Faults { write: 4, ..NONE },
            status: AgentStatus::StationFault,
            asked: &[Part::AuthRoot, Part::BeginLine, Part::Respond1],
            ..UNANSWERED
        },
        UNPRINTED,
        Row {
            shows: "the output fails inside the line",
            faults: Faults { output: 2, ..NONE },
            printed: "a.self",
            ..UNPRINTED
        },
    ]
}

/// A rule file.
fn rule_file(alloc: Global, rules: &str) -> Result<TreeFile, NoMemory> {
    let path = text(alloc, "/rules")?;
    let bytes = ByteList::try_from_slice(alloc, rules.as_bytes())?;
    Ok(TreeFile { path, bytes })
}

/// A tree with a rule file.
fn tree(alloc: Global, rules: &str, fault: u64) -> Result<ListTree, NoMemory> {
    let files = one(alloc, rule_file(alloc, rules)?)?;
    let failing = vec![in alloc; fault]?;
    Ok(ListTree::new(alloc, files, List::new(alloc), failing))
}

/// The words of an agent.
fn words(alloc: Global, row: &Row) -> Result<TextList, NoMemory> {
    texts(
        alloc,
        &[
            "--door",
            row.door_at,
            "--helper",
            row.helper_at,
            "--session",
            "s1",
            "--rules",
            row.rules_at,
            "--count",
            row.count,
        ],
    )
}

/// A station with the links of a row.
fn station(alloc: Global, row: &Row) -> Result<TwoDoors, NoMemory> {
    let door = link(alloc, row.door, 50, row.faults)?;
    let helper = link(alloc, row.helper, 50, row.faults.of_helper())?;
    Ok(two_doors(door, Some(helper)))
}

/// The run of an agent at a station.
fn run(
    alloc: Global,
    row: &Row,
    station: &mut TwoDoors,
    output: &mut ByteSink,
) -> Result<AgentStatus, NoMemory> {
    let words = words(alloc, row)?;
    let mut tree = tree(alloc, row.rules, row.faults.tree)?;
    Ok(script_agent(alloc, words.as_slice(), &mut tree, station, output))
}

/// In what the end of a run, what it printed and what it sent differ from its row, if they do.
fn told_apart(
    alloc: Global,
    row: &Row,
    status: AgentStatus,
    printed: &[u8],
    station: &TwoDoors,
) -> Result<&'static str, NoMemory> {
    let sent = joined(alloc, row.sent)?;
    let asked = joined(alloc, row.asked)?;
    let failed = u64::from(row.status == AgentStatus::StationFault);
    Ok(if status != row.status {
        "status"
    } else if status.code() != row.code {
        "code"
    } else if printed != row.printed.as_bytes() {
        "printed"
    } else if written(&station.first) != sent.as_slice() {
        "sent"
    } else if written(&station.second) != asked.as_slice() {
        "asked"
    } else if station.faults != failed {
        "faults"
    } else {
        ""
    })
}

/// In what a run differs from its row, if it does.
fn difference(alloc: Global, row: &Row) -> Result<&'static str, NoMemory> {
    let mut output = output(alloc, row.faults.output)?;
    let mut station = station(alloc, row)?;
    let status = run(alloc, row, &mut station, &mut output)?;
    told_apart(alloc, row, status, output.bytes(), &station)
}

#[test]
fn failing_objects_stop_an_agent(rt: HostRuntime) -> Result<(), Fail> {
    for row in failing() {
        assert_eq!(rt; difference(rt.alloc(), row)?, "", "{}", row.shows);
    }
    Ok(())
}

/// How the run of an agent ends at a station.
fn end_at(
    alloc: Global,
    row: &Row,
    station: &mut TwoDoors,
    output: &mut ByteSink,
) -> Result<Ended, NoMemory> {
    let status = run(alloc, row, station, output)?;
    let text = format!(in alloc; "{status:?}")?;
    Ended::new(alloc, text, status.code(), output, station)
}

/// How the agent ends with these faults.
fn ended(alloc: Global, faults: Faults) -> Result<Ended, NoMemory> {
    let row = Row { faults, ..ONE };
    let mut output = output(alloc, faults.output)?;
    let mut station = station(alloc, &row)?;
    end_at(alloc, &row, &mut station, &mut output)
}

/// The faults at this call of each kind, and how many calls of the kind are made: the authority sends 349
/// bytes and the helper's door 61, in pieces of 50, and a handshake takes two writes.
fn kinds(call: u64) -> [(Faults, u64); 4] {
    [
        (Faults { read: call, ..NONE }, 7),
        (
            Faults {
                write: call,
                ..NONE
            },
            4,
        ),
        (
            Faults {
                helper_read: call,
                ..NONE
            },
            2,
        ),
        (
            Faults {
                helper_write: call,
                ..NONE
            },
            3,
        ),
    ]
}

/// Whether the agent is stopped by these faults, where one of their calls is made, and else is whole.
fn is_stopped(alloc: Global, faults: Faults, is_made: bool) -> Result<bool, NoMemory> {
    let whole = ended(alloc, NONE)?;
    let ended = ended(alloc, faults)?;
    Ok(if is_made {
        ended.is_stopped(&whole)
    } else {
        ended.is_alike(&whole)
    })
}

#[test]
fn each_failing_call_stops_an_agent(rt: HostRuntime) -> Result<(), Fail> {
    for call in 1..10u64 {
        for (kind, (faults, made)) in kinds(call).iter().enumerate() {
            let is_so = is_stopped(rt.alloc(), *faults, call <= *made)?;
            assert!(rt; is_so, "call {call} of kind {kind}");
        }
    }
    Ok(())
}

/// Two faults of different kinds, at these calls.
fn pairs(first: u64, second: u64) -> [[Faults; 2]; 4] {
    let [(read, _), (write, _), (helper_read, _), _] = kinds(first);
    let [_, (other_write, _), _, (helper_write, _)] = kinds(second);
    [
        [read, other_write],
        [helper_read, helper_write],
        [read, helper_write],
        [write, helper_write],
    ]
}

/// Whether the agent ends with both faults as with one of them alone.
fn ends_as_one(alloc: Global, pair: &[Faults; 2]) -> Result<bool, NoMemory> {
    let [one, other] = *pair;
    let both = ended(alloc, one.beside(other))?;
    let one = ended(alloc, one)?;
    let other = ended(alloc, other)?;
    Ok(both.is_one_of(&one, &other))
}

/// The first of these pairs with which it does not, by its place.
fn odd_pair(alloc: Global, first: u64, second: u64) -> Result<Option<usize>, NoMemory> {
    for (place, pair) in pairs(first, second).iter().enumerate() {
        if !ends_as_one(alloc, pair)? {
            return Ok(Some(place));
        }
    }
    Ok(None)
}

#[test]
fn two_failing_calls_stop_an_agent_as_one(rt: HostRuntime) -> Result<(), Fail> {
    for first in 1..9u64 {
        for second in 1..6u64 {
            let odd = odd_pair(rt.alloc(), first, second)?;
            assert_eq!(rt; odd, None, "at calls {first} and {second}");
        }
    }
    Ok(())
}
