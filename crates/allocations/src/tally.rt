//! The tally of results.

/// How many results are right, how many report a failed allocation as their call specifies, and how many are wrong.
#[derive(Clone, Copy, Default)]
pub struct Tally {
    pub right: u32,
    pub out_of_memory: u32,
    pub wrong: u32,
}

impl Tally {
    /// Counts a result.
    pub fn add(&mut self, right: bool, out_of_memory: bool) {
        if right {
            self.right = self.right.saturating_add(1);
        } else if out_of_memory {
            self.out_of_memory = self.out_of_memory.saturating_add(1);
        } else {
            self.wrong = self.wrong.saturating_add(1);
        }
    }

    /// Counts a result that no failed allocation can change.
    pub fn check(&mut self, right: bool) {
        self.add(right, false);
    }

    /// Counts an output, or an error.
    pub fn add_text<E>(&mut self, returned: &Result<String, E>, wanted: &str, out_of_memory: bool) {
        match returned {
            Ok(text) => self.add(text.as_str() == wanted, false),
            Err(_) => self.add(false, out_of_memory),
        }
    }

    /// Counts a clone, which must be equal.
    pub fn add_copy<D: Clone + PartialEq + Drop>(&mut self, made: &D) {
        match made.clone() {
            Ok(copy) => self.add(copy == *made, false),
            Err(_) => self.add(false, true),
        }
    }
}
