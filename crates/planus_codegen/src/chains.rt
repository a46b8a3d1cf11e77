//! Lists and functions for some members each, which go on with the next: all members together are
//! more than the checker takes.

use crate::at::At;
use crate::printer::Printer;

/// The members of each list and function.
const GROUP: usize = 10;

impl<'a> Printer<'a> {
    fn lists(&self, at: At) -> usize {
        self.context.names.count(at.index).div_ceil(GROUP)
    }

    // Adds a list of some members and those of the next list.
    fn put_list_from(&mut self, head: &str, entry: &str, next: &str, at: At) {
        let count = self.context.names.count(at.index);
        let end = at.place.saturating_add(GROUP);
        self.put(head, at);
        for place in at.place..end.min(count) {
            self.put(entry, at.member(place));
        }
        self.put(if end < count { next } else { "~[]" }, at.member(end));
        self.put_str("\n\n");
    }

    /// Adds the lists of all members, the last one first. `next` names the list from a place on.
    pub(crate) fn put_lists(&mut self, head: &str, entry: &str, next: &str, at: At) {
        let lists = self.lists(at);
        for list in 0..lists {
            let left = lists.saturating_sub(list).saturating_sub(1);
            let at = at.member(left.saturating_mul(GROUP));
            self.put_list_from(head, entry, next, at);
        }
    }

    /// Adds the names of all those lists.
    pub(crate) fn put_list_names(&mut self, at: At) {
        for list in 0..self.lists(at) {
            self.put("~from_$p_on", at.member(list.saturating_mul(GROUP)));
        }
    }

    /// Adds functions with an arm for each member. `next` ends each but the last.
    pub(crate) fn put_functions(&mut self, head: &str, arm: &str, next: &str, at: At) {
        for place in 0..self.context.names.count(at.index) {
            let at = at.member(place);
            if place % GROUP == 0 {
                self.put(if place > 0 { next } else { "" }, at);
                self.put(head, at);
            }
            self.put(arm, at);
        }
    }
}
