//! What `Display` and `Debug` show of several values.
use std::alloc::Global;
use std::fmt::{Debug, Display};

/// What is shown of several values, each with LF after it. A value is left out if an allocation fails.
#[derive(Drop)]
pub struct Page {
    alloc: Global,
    text: String,
}

impl Page {
    /// An empty page.
    pub fn new(alloc: Global) -> Self {
        Page {
            alloc,
            text: String::new(alloc),
        }
    }

    pub fn text(&self) -> &str {
        self.text.as_str()
    }

    /// Appends a string that was made, if it was.
    pub fn add<E: Drop>(&mut self, made: Result<String, E>) {
        if let Ok(text) = made {
            let _ = self.text.push_str(text.as_str());
            let _ = self.text.push_str("\n");
        }
    }

    /// Appends what `Display` shows of a value.
    pub fn show<D: Display>(&mut self, value: &D) {
        self.add(value.to_string(self.alloc));
    }

    /// Appends what `Debug` shows of a value.
    pub fn debug<D: Debug>(&mut self, value: &D) {
        self.add(format!(in self.alloc; "{value:?}"));
    }

    /// Appends the message of an error, and what `Debug` shows of it.
    pub fn both<E: Debug + Display>(&mut self, error: &E) {
        self.show(error);
        self.debug(error);
    }
}
