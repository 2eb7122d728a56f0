//! What `Display` and `Debug` show of several values.
use std::alloc::Global;
use std::fmt::{Debug, Display};

/// What is shown of several values, each with LF after it. In place of a value that there is not, it has `none`.
#[derive(Drop)]
pub struct Page {
    alloc: Global,
    text: String,
}

impl Page {
    /// An empty page.
    pub fn new(alloc: Global) -> Self {
        Page {
            alloc,
            text: String::new(alloc),
        }
    }

    pub fn text(&self) -> &str {
        self.text.as_str()
    }

    /// Appends a string that was made, if it was.
    pub fn add(&mut self, made: Option<String>) {
        let text = match &made {
            Some(text) => text.as_str(),
            None => "none",
        };
        let _ = self.text.push_str(text);
        let _ = self.text.push_str("\n");
    }

    /// Appends what `Display` shows of a value.
    pub fn show<D: Display>(&mut self, value: &D) {
        self.add(value.to_string(self.alloc).ok());
    }

    /// Appends what `Debug` shows of a value.
    pub fn debug<D: Debug>(&mut self, value: &D) {
        self.add(format!(in self.alloc; "{value:?}").ok());
    }
}
