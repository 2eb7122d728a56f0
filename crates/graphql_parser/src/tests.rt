//! What no clause says and no case shows of calls, and every public call once with ample memory.

mod building;
mod errors;
mod literals;
mod messages;
mod names;
mod outputs;
mod page;
mod schemas;
mod sources;
mod statics;
mod streams;
mod values;
mod walks;
