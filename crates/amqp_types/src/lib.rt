//! Values of AMQP 1.0, read from octets that lie in memory, with no memory of their own, and written
//! in their shortest form.
//!
//! `Value::read` takes the value at the front of any octets. What it takes is a value of the
//! standard's grammar, and wherever a front of the input is one, it takes exactly that front: so no
//! value begins another, and a value reads the same whatever follows it, and wherever it lies, as long
//! as it isn't too deep there. Where no front is a value, the fault is the first one from left to right, with its
//! offset. Values are nested at most 32 deep. The items of a list, a map or an array, a descriptor and what it describes
//! were read with the value that holds them: to take them out cannot fail.
//!
//! Reading order: `fault`, `code`, `value`, `sequence`, `constructor`, `described`, `primitive`,
//! `reading`, `known`, `simple`, `listed`, `writing`.
#![tactic(auto)]

mod code;
mod constructor;
mod described;
mod fault;
mod known;
mod listed;
mod primitive;
mod reading;
mod sequence;
mod simple;
mod value;
mod writing;

pub use code::{Code, Kind, Opaque, Scalar, SizeWidth, Text};
pub use fault::{ValueFault, ValueFaultKind};
pub use listed::read_described_list;
pub use sequence::Items;
pub use simple::Simple;
pub use value::Value;
pub use writing::{
    put_binary, put_bool, put_described_list, put_list, put_null, put_parts, put_str, put_symbol,
    put_ubyte, put_uint, put_ulong, put_ushort,
};
