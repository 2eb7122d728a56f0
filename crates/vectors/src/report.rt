//! The report on an input.
use crate::languages::ParseFailure;
use graphql_parser::Cause;
use std::alloc::{AllocError, Global};
use std::fmt;

/// The report on an input: a text, and whether the input is rejected. The report is wrong if a check fails that every
/// case makes. It is cut short if an allocation failed.
#[derive(Drop)]
pub struct Report {
    pub alloc: Global,
    text: String,
    is_error: bool,
    is_wrong: bool,
    is_cut_short: bool,
}

impl Report {
    /// An empty report.
    pub fn new(alloc: Global) -> Self {
        Report {
            alloc,
            text: String::new(alloc),
            is_error: false,
            is_wrong: false,
            is_cut_short: false,
        }
    }

    pub fn text(&self) -> &str {
        self.text.as_str()
    }

    pub fn is_error(&self) -> bool {
        self.is_error
    }

    pub fn is_wrong(&self) -> bool {
        self.is_wrong
    }

    /// Appends a string.
    pub fn append(&mut self, text: &str) {
        if self.text.push_str(text).is_err() {
            self.is_cut_short = true;
        }
    }

    /// Appends a string that was made. If that failed, the report is cut short.
    pub fn append_made(&mut self, made: &Result<String, AllocError>) {
        match made {
            Ok(text) => self.append(text.as_str()),
            Err(_) => self.is_cut_short = true,
        }
    }

    /// Appends an output, or reports that the input is rejected.
    pub fn append_result<E: fmt::Display>(&mut self, returned: &Result<String, E>) {
        match returned {
            Ok(text) => self.append(text.as_str()),
            Err(error) => self.reject(error),
        }
    }

    /// Appends what `Display` shows of a part.
    pub fn show<D: fmt::Display>(&mut self, part: &D) {
        self.append_made(&part.to_string(self.alloc));
    }

    /// The same, and the end of the line.
    pub fn show_line<D: fmt::Display>(&mut self, part: &D) {
        self.show(part);
        self.append("\n");
    }

    /// Appends what `Debug` shows of a part.
    pub fn show_debug<D: fmt::Debug>(&mut self, part: &D) {
        self.append_made(&format!(in self.alloc; "{part:?}"));
    }

    /// Reports that the input is rejected, with what `Display` shows of the error.
    pub fn reject<E: fmt::Display>(&mut self, error: &E) {
        self.is_error = true;
        self.show(error);
    }

    /// Reports that the input is not a document. The message must end with the position and the cause of the error.
    pub fn reject_at<E: ParseFailure>(&mut self, error: &E) {
        self.reject(error);
        let (place, cause) = (error.position(), error.cause());
        let Some(position) = place else {
            self.is_cut_short = true;
            self.is_wrong |= !matches!(cause, Cause::OutOfMemory);
            return;
        };
        match format!(in self.alloc; " parse error: Parse error at {position}\n{cause}\n") {
            Ok(end) => self.is_wrong |= !self.text().ends_with(end.as_str()),
            Err(_) => self.is_cut_short = true,
        }
    }

    /// Reports that the input is rejected, with the position of the error and what `Debug` and `Display` show of it.
    pub fn reject_as<E: ParseFailure>(&mut self, error: &E) {
        self.is_cut_short |= matches!(error.cause(), Cause::OutOfMemory);
        if let Some(position) = error.position() {
            self.show(&position);
        }
        self.append(" ");
        self.show_debug(error);
        self.append("\n");
        self.reject(error);
    }

    /// Marks the report as cut short, since an allocation failed.
    pub fn cut_short(&mut self) {
        self.is_cut_short = true;
    }

    /// Marks the report as wrong.
    pub fn find_wrong(&mut self) {
        self.is_wrong = true;
    }

    /// Marks the report as wrong or cut short if another report is.
    pub fn follow(&mut self, other: &Report) {
        self.is_wrong |= other.is_wrong;
        if other.is_cut_short() {
            self.is_cut_short = true;
        }
    }

    /// The same. Also marks the report as wrong if the other report differs.
    pub fn compare(&mut self, other: &Report) {
        self.follow(other);
        if self.text != other.text || self.is_error != other.is_error {
            self.is_wrong = true;
        }
    }

    /// Whether an allocation failed, also in the call whose error is reported.
    pub fn is_cut_short(&self) -> bool {
        self.is_cut_short
            || self.is_error
                && (self.text() == "out of memory"
                    || self.text().ends_with(" error: out of memory"))
    }
}
