// Services over memory, with what comes of them.
use crate::memory::{Fault, LinkRow, ROOM, Scene, Served, play};
use crate::wire::{CHANGED, CHANGED_FIRST, DONE, OK, UNKNOWN, YES_ANY};
use crate::written::{is_made, is_told};
use pk_outside::Sighted;
use pk_types::NoMemory;
use std::alloc::Global;
use std::sync::Wait;
use std::test::Fail;
use std::thread::Threads;
use test_parts::{CHECK_YES, RELOAD, SHAKE_ALICE, SHAKE_ROOT};

/// What may come of a service: with what the text of its end begins, what its lines begin and end
/// with, and what the first link of each door was sent.
#[derive(Clone, Copy)]
struct Outcome {
    end: &'static str,
    lines: &'static [(&'static str, &'static str)],
    sent: &'static [&'static [&'static [u8]]],
}

/// A service, and all that may come of it.
#[derive(Clone, Copy)]
struct Row {
    shows: &'static str,
    scene: Scene,
    outcomes: &'static [Outcome],
}

/// A check that is answered by yes.
const CHECKS: LinkRow = LinkRow {
    gives: &[SHAKE_ALICE, CHECK_YES],
    room: ROOM,
};

/// The same check twice.
const CHECKS_TWICE: LinkRow = LinkRow {
    gives: &[SHAKE_ALICE, CHECK_YES, CHECK_YES],
    room: ROOM,
};

/// A check without room for what is sent.
const ROOMLESS: LinkRow = LinkRow {
    gives: &[SHAKE_ALICE, CHECK_YES],
    room: 0,
};

/// A check with room for the answer to the handshake.
const SHAKES: LinkRow = LinkRow {
    gives: &[SHAKE_ALICE, CHECK_YES],
    room: 37,
};

/// A reload by root.
const RELOADS: LinkRow = LinkRow {
    gives: &[SHAKE_ROOT, RELOAD],
    room: ROOM,
};

const ONE_DOOR: &[&str] = &[
    "--root",
    "/r",
    "--door",
    "1000:/one",
    "--slots",
    "1",
    "--stop-after",
    "1",
];

const ROOT_DOOR: &[&str] = &[
    "--root",
    "/r",
    "--door",
    "0:/one",
    "--slots",
    "1",
    "--stop-after",
    "1",
];

const TWO_DOORS: &[&str] = &[
    "--root",
    "/r",
    "--door",
    "1000:/one",
    "--door",
    "1000:/two",
    "--slots",
    "1",
    "--stop-after",
    "1",
];

/// What comes of a check.
const ANSWERED: Outcome = Outcome {
    end: "Done",
    lines: &[
        ("connection 3 1000 done 1 1", ""),
        ("entries ", " loads 1 refused 0"),
    ],
    sent: &[&[OK, YES_ANY]],
};

/// A service with one check.
const CHECKED: Row = Row {
    shows: "a check is answered",
    scene: Scene {
        words: ONE_DOOR,
        doors: &[&[CHECKS]],
        sights: &[],
        fault: Fault::None,
    },
    outcomes: &[ANSWERED],
};

/// Services whose connections are served, if they come.
const SERVED: &[Row] = &[
    CHECKED,
    Row {
        shows: "a slot serves one link after another, until its door is closed",
        scene: Scene {
            words: &["--root", "/r", "--door", "1000:/one", "--slots", "1"],
            doors: &[&[CHECKS, CHECKS]],
            sights: &[],
            fault: Fault::None,
        },
        outcomes: &[Outcome {
            end: "Done",
            lines: &[
                ("connection 3 1000 done 1 1", ""),
                ("connection 5 1000 done 1 1", ""),
                ("entries ", " loads 1 refused 0"),
            ],
            sent: &[&[OK, YES_ANY]],
        }],
    },
    Row {
        shows: "a reload, of which its connection is told or not",
        scene: Scene {
            words: ROOT_DOOR,
            doors: &[&[RELOADS]],
            sights: &[],
            fault: Fault::None,
        },
        outcomes: &[
            Outcome {
                end: "Done",
                lines: &[
                    ("connection 3 0 done 1 1", ""),
                    ("entries ", " loads 2 refused 0"),
                ],
                sent: &[&[OK, DONE]],
            },
            Outcome {
                end: "Done",
                lines: &[
                    ("connection 3 0 done 1 2", ""),
                    ("entries ", " loads 2 refused 0"),
                ],
                sent: &[&[OK, DONE, CHANGED]],
            },
        ],
    },
    Row {
        shows: "no link at a door",
        scene: Scene {
            words: ONE_DOOR,
            doors: &[&[]],
            sights: &[],
            fault: Fault::None,
        },
        outcomes: &[Outcome {
            end: "Done",
            lines: &[("entries 3 loads 1 refused 0", "")],
            sent: &[],
        }],
    },
];

/// A service of one connection that looks at the process of its check.
const LIVE_DOOR: &[&str] = &[
    "--root",
    "/r",
    "--door",
    "1000:/one",
    "--slots",
    "1",
    "--stop-after",
    "1",
    "--live",
];

/// The process of the checks, as it is listed.
const ALIVE: Sighted = Sighted::Alive { start: 8 };

/// What comes of a check whose process has ended.
const ENDED: Outcome = Outcome {
    end: "Done",
    lines: &[
        ("connection 3 1000 done 1 2", ""),
        ("entries ", " loads 2 refused 0"),
    ],
    sent: &[&[OK, CHANGED_FIRST, UNKNOWN]],
};

/// Services whose connections look at the processes of their checks.
const LIVE: &[Row] = &[
    Row {
        shows: "the process is alive",
        scene: Scene {
            words: LIVE_DOOR,
            doors: &[&[CHECKS]],
            sights: &[&[ALIVE]],
            fault: Fault::None,
        },
        outcomes: &[ANSWERED],
    },
    Row {
        shows: "the process has gone",
        scene: Scene {
            words: LIVE_DOOR,
            doors: &[&[CHECKS]],
            sights: &[&[Sighted::Gone]],
            fault: Fault::None,
        },
        outcomes: &[ENDED],
    },
    Row {
        shows: "its number is that of another process",
        scene: Scene {
            words: LIVE_DOOR,
            doors: &[&[CHECKS]],
            sights: &[&[Sighted::Alive { start: 9 }]],
            fault: Fault::None,
        },
        outcomes: &[ENDED],
    },
    Row {
        shows: "the look fails",
        scene: Scene {
            words: LIVE_DOOR,
            doors: &[&[CHECKS]],
            sights: &[&[Sighted::Failed]],
            fault: Fault::None,
        },
        outcomes: &[Outcome {
            end: "Done",
            lines: &[
                ("connection 3 1000 sight-fault 0 0", ""),
                ("entries ", " loads 1 refused 0"),
            ],
            sent: &[&[OK]],
        }],
    },
    Row {
        shows: "the second look fails",
        scene: Scene {
            words: LIVE_DOOR,
            doors: &[&[CHECKS_TWICE]],
            sights: &[&[ALIVE, Sighted::Failed]],
            fault: Fault::None,
        },
        outcomes: &[Outcome {
            end: "Done",
            lines: &[
                ("connection 3 1000 sight-fault 1 1", ""),
                ("entries ", " loads 1 refused 0"),
            ],
            sent: &[&[OK, YES_ANY]],
        }],
    },
    Row {
        shows: "the next connection of a slot has the next look, and three passes lie between them",
        scene: Scene {
            words: &[
                "--root",
                "/r",
                "--door",
                "1000:/one",
                "--slots",
                "1",
                "--live",
            ],
            doors: &[&[CHECKS, CHECKS]],
            sights: &[&[ALIVE, Sighted::Gone]],
            fault: Fault::None,
        },
        outcomes: &[Outcome {
            end: "Done",
            lines: &[
                ("connection 3 1000 done 1 1", ""),
                ("connection 6 1000 done 1 2", ""),
                ("entries ", " loads 2 refused 0"),
            ],
            sent: &[&[OK, YES_ANY]],
        }],
    },
    Row {
        shows: "each slot has looks of its own, and a look that fails ends its connection alone",
        scene: Scene {
            words: &[
                "--root",
                "/r",
                "--door",
                "1000:/one",
                "--door",
                "1000:/two",
                "--slots",
                "1",
                "--stop-after",
                "1",
                "--live",
            ],
            doors: &[&[CHECKS], &[CHECKS]],
            sights: &[&[Sighted::Failed], &[ALIVE]],
            fault: Fault::None,
        },
        outcomes: &[Outcome {
            end: "Done",
            lines: &[
                ("connection ", " 1000 sight-fault 0 0"),
                ("connection ", " 1000 done 1 1"),
                ("entries ", " loads 1 refused 0"),
            ],
            sent: &[&[OK], &[OK, YES_ANY]],
        }],
    },
    Row {
        shows: "nothing is looked at without the word",
        scene: Scene {
            words: ONE_DOOR,
            doors: &[&[CHECKS]],
            sights: &[&[Sighted::Gone]],
            fault: Fault::None,
        },
        outcomes: &[ANSWERED],
    },
];

/// Services with something that fails.
const FAILING: &[Row] = &[
    Row {
        shows: "the first read fails",
        scene: Scene {
            words: ONE_DOOR,
            doors: &[&[CHECKS]],
            sights: &[],
            fault: Fault::Read(1),
        },
        outcomes: &[Outcome {
            end: "Done",
            lines: &[
                ("connection 3 1000 read-fault 0 0", ""),
                ("entries 3 loads 1 refused 0", ""),
            ],
            sent: &[&[]],
        }],
    },
    Row {
        shows: "a journal of one entry",
        scene: Scene {
            words: &[
                "--root",
                "/r",
                "--door",
                "1000:/one",
                "--slots",
                "1",
                "--stop-after",
                "1",
                "--entries",
                "1",
            ],
            doors: &[&[CHECKS]],
            sights: &[],
            fault: Fault::None,
        },
        outcomes: &[Outcome {
            end: "Full(Fullness { entries: 1, ",
            lines: &[
                ("connection 3 1000 ended 0 0", ""),
                ("entries 1 loads 1 refused 0", ""),
            ],
            sent: &[&[OK]],
        }],
    },
    Row {
        shows: "a door fails, and the other slot serves",
        scene: Scene {
            words: TWO_DOORS,
            doors: &[&[CHECKS], &[CHECKS]],
            sights: &[],
            fault: Fault::Accept(1),
        },
        outcomes: &[Outcome {
            end: "DoorFault",
            lines: &[
                ("connection ", " 1000 done 1 1"),
                ("entries ", " loads 1 refused 0"),
            ],
            sent: &[&[], &[OK, YES_ANY]],
        }],
    },
    Row {
        shows: "no room for what a link is sent, and the other link is served",
        scene: Scene {
            words: TWO_DOORS,
            doors: &[&[ROOMLESS], &[CHECKS]],
            sights: &[],
            fault: Fault::None,
        },
        outcomes: &[Outcome {
            end: "Done",
            lines: &[
                ("connection ", " 1000 write-fault 0 0"),
                ("connection ", " 1000 done 1 1"),
                ("entries ", " loads 1 refused 0"),
            ],
            sent: &[&[], &[OK, YES_ANY]],
        }],
    },
    Row {
        shows: "room for the handshake alone, and the other link is served",
        scene: Scene {
            words: TWO_DOORS,
            doors: &[&[SHAKES], &[CHECKS]],
            sights: &[],
            fault: Fault::None,
        },
        outcomes: &[Outcome {
            end: "Done",
            lines: &[
                ("connection ", " 1000 write-fault 1 1"),
                ("connection ", " 1000 done 1 1"),
                ("entries ", " loads 1 refused 0"),
            ],
            sent: &[&[OK], &[OK, YES_ANY]],
        }],
    },
    Row {
        shows: "a door is not made",
        scene: Scene {
            words: TWO_DOORS,
            doors: &[&[CHECKS], &[CHECKS]],
            sights: &[],
            fault: Fault::Door(2),
        },
        outcomes: &[Outcome {
            end: "DoorFault",
            lines: &[],
            sent: &[],
        }],
    },
    Row {
        shows: "the output fails",
        scene: Scene {
            words: ONE_DOOR,
            doors: &[&[CHECKS]],
            sights: &[],
            fault: Fault::Output(1),
        },
        outcomes: &[Outcome {
            end: "WriteFault",
            lines: &[],
            sent: &[&[OK, YES_ANY]],
        }],
    },
    Row {
        shows: "the first load fails",
        scene: Scene {
            words: ONE_DOOR,
            doors: &[&[CHECKS]],
            sights: &[],
            fault: Fault::Tree(1),
        },
        outcomes: &[Outcome {
            end: "TreeFault { count: 1 }",
            lines: &[],
            sent: &[],
        }],
    },
];

/// Whether the first links of the doors were sent this.
fn is_sent(served: &Served, wanted: &[&[&[u8]]]) -> bool {
    for (place, parts) in wanted.iter().enumerate() {
        if !is_made(served.sent(place, 0), parts) {
            return false;
        }
    }
    true
}

/// Whether this came of a service.
fn is_outcome(served: &Served, outcome: &Outcome) -> bool {
    served.end.as_str().starts_with(outcome.end)
        && is_told(served.written(), outcome.lines)
        && is_sent(served, outcome.sent)
}

/// Whether what came of a service is one of what may.
fn is_allowed(served: &Served, outcomes: &[Outcome]) -> bool {
    for outcome in outcomes {
        if is_outcome(served, outcome) {
            return true;
        }
    }
    false
}

/// How a service ended and what it wrote.
fn told(alloc: Global, served: &Served) -> Result<String, NoMemory> {
    let end = served.end.as_str();
    let lines = String::from_utf8_lossy(alloc, served.written())?;
    Ok(format!(in alloc; "{end} {lines:?}")?)
}

/// The same where it is not allowed.
fn difference<R: Threads + Wait + Sync>(
    rt: &R,
    alloc: Global,
    row: &Row,
) -> Result<String, NoMemory> {
    let served = play(rt, alloc, &row.scene)?;
    if is_allowed(&served, row.outcomes) {
        Ok(String::new(alloc))
    } else {
        told(alloc, &served)
    }
}

#[test]
fn connections_are_served(rt: HostRuntime) -> Result<(), Fail> {
    for row in SERVED {
        let found = difference(&rt, rt.alloc(), row)?;
        assert_eq!(rt; found.as_str(), "", "{}", row.shows);
    }
    Ok(())
}

#[test]
fn live_connections_look_at_their_processes(rt: HostRuntime) -> Result<(), Fail> {
    for row in LIVE {
        let found = difference(&rt, rt.alloc(), row)?;
        assert_eq!(rt; found.as_str(), "", "{}", row.shows);
    }
    Ok(())
}

#[test]
fn faults_have_their_end(rt: HostRuntime) -> Result<(), Fail> {
    for row in FAILING {
        let found = difference(&rt, rt.alloc(), row)?;
        assert_eq!(rt; found.as_str(), "", "{}", row.shows);
    }
    Ok(())
}
