// A scenario that comes in pieces of any size, and whose answers go in such pieces.
use crate::runs::{IoPlan, NO_FAULTS, Wanted, difference};
use std::test::Fail;

const CHECKS: &str =
    "process 1 1 0 -\nprocess 51 8 1000 -\nprocess 60 9 1001 -\naction a.yes yes yes yes\naction a.no no no no\naction a.self no no auth_self\naction a.admin auth_admin auth_admin auth_admin\npeer 1 1000\npeer 2 0\ncheck 1 1 process:51:8 a.yes\ncheck 1 2 process:51:8 a.no\ncheck 1 3 process:51:8 a.admin\ncheck 2 1 process:1:1 a.no\ncheck 1 4 process:60:9 a.yes\ncheck 2 2 process:60:9 a.self\ncheck 1 5 process:9:9 a.none\ncheck 1 6 process:9:9 a.yes\n";

const ANSWERS: &str =
    "1 1 yes default:any\n1 2 no default:any\n1 3 challenge default:any\n2 1 yes root\n1 4 error NotAuthorized not-trusted\n2 2 no default:any\n1 5 error Failed unknown-action\n1 6 error Failed unknown-subject\n";

#[test]
fn pieces_change_nothing(rt: HostRuntime) -> Result<(), Fail> {
    for piece in [1, 2, 3, 7, 64] {
        let plan = IoPlan {
            read_piece: piece,
            write_piece: piece,
            ..NO_FAULTS
        };
        let wanted = Wanted::done(ANSWERS.as_bytes());
        let differs = difference(
            &rt,
            rt.alloc(),
            &["replay"],
            CHECKS.as_bytes(),
            plan,
            wanted,
        )?;
        assert_eq!(rt; differs, "");
    }
    Ok(())
}
