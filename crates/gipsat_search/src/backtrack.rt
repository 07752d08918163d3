//! Backtracking: decisions are taken back.

use crate::activity::Activity;
use crate::trail::Trail;

// Backtracks to a level. Unassigned variables are queued again.
pub(crate) fn backtrack(trail: &mut Trail, activity: &mut Activity, level: usize) {
    if level >= trail.level() {
        return;
    }
    let start = trail.start_above(level);
    for _ in start..trail.steps.len() {
        if let Some(l) = trail.pop() {
            activity.put_back(l.variable());
        }
    }
    trail.end_at(level);
}

// Backtracks to the root, where a domain that is set is about to be set anew or unset: so none of it is queued again.
pub(crate) fn backtrack_to_root(trail: &mut Trail, activity: &mut Activity) {
    if !activity.is_limited() {
        backtrack(trail, activity, 0);
        return;
    }
    for _ in trail.root_len()..trail.steps.len() {
        trail.pop();
    }
    trail.end_at(0);
}
