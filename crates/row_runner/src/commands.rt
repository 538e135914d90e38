// What the words of a command line name, and the rules of the agent program.
use crate::row::Row;
use agent_rules::Rules;
use command_line::{DoorPath, read_door};
use serve_words::{ServePlan, read_plan};

fn decide(row: &mut Row, rules: &Rules) {
    let action = row.text();
    row.show(&rules.decide(&action));
}

/// `agent_rule FILE ACTION`: what a rule file decides for an action
pub fn agent_rule(row: &mut Row) {
    match Rules::read(row.alloc, row.bytes()) {
        Ok(rules) => decide(row, &rules),
        Err(fault) => {
            let _action = row.text();
            row.refuse(&fault);
        }
    }
}

fn show_door(row: &mut Row, door: &DoorPath) {
    row.field("uid", &door.uid);
    row.named("path", door.path.bytes());
}

/// `door WORD`
pub fn door(row: &mut Row) {
    match read_door(row.alloc, row.bytes()) {
        Ok(Some(door)) => show_door(row, &door),
        Ok(None) => row.word("None"),
        Err(fault) => row.refuse(&fault),
    }
}

fn show_plan(row: &mut Row, plan: &ServePlan) {
    row.named("root", plan.root.bytes());
    for door in plan.doors.as_slice() {
        show_door(row, door);
    }
    row.field("slots", &plan.slots);
    row.field("stop_after", &plan.stop_after);
    row.field("entries", &plan.limits.entries);
    row.field("live", &plan.live);
    row.field("audit", &plan.audit);
}

/// `serve_plan WORD..`
pub fn serve_plan(row: &mut Row) {
    let words = row.text_list();
    match read_plan(row.alloc, words.as_slice()) {
        Ok(Some(plan)) => show_plan(row, &plan),
        Ok(None) => row.word("None"),
        Err(fault) => row.refuse(&fault),
    }
}
