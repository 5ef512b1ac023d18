//! What is said of octets that are no frame or no performative.

use crate::page::Page;
use amqp_perf::PerfFault;
use amqp_types::ValueFaultKind;
use capture_view::FrameFlaw;
use std::alloc::AllocError;

impl Page {
    /// Appends why octets are no whole frame of AMQP, and where.
    pub(crate) fn put_flaw(&mut self, flaw: FrameFlaw, at: usize) -> Result<(), AllocError> {
        match flaw {
            FrameFlaw::Fault(fault) => write!(self.text, "no frame: {fault}")?,
            FrameFlaw::Short => self.put("no frame: it ends too early")?,
            FrameFlaw::Long => self.put("no frame: octets stand behind it")?,
            FrameFlaw::Sasl => self.put("no frame of AMQP: one of SASL")?,
        }
        self.put_place(at)
    }

    /// Appends why a body begins with no performative, and where.
    pub(crate) fn put_fault(&mut self, fault: PerfFault, at: usize) -> Result<(), AllocError> {
        match fault {
            PerfFault::Value(fault) => {
                self.put("no performative: ")?;
                self.put(rule_broken(fault.kind))?;
            }
            fault => write!(self.text, "no performative: {fault}")?,
        }
        self.put_place(at)
    }

    fn put_place(&mut self, at: usize) -> Result<(), AllocError> {
        write!(self.text, " (octet {at})")
    }
}

/// Which rule octets break that are no value.
fn rule_broken(kind: ValueFaultKind) -> &'static str {
    match kind {
        ValueFaultKind::Short => "a value passes the end of the frame",
        ValueFaultKind::UnknownCode => "no type has this format code",
        ValueFaultKind::BadSize => "a size does not fit its count and items",
        ValueFaultKind::BadText => "a string is not UTF-8, or a symbol not ASCII",
        ValueFaultKind::TooDeep => "a value lies more than 32 values deep",
        ValueFaultKind::BadBoolean => "the octet of a boolean is neither 0 nor 1",
        ValueFaultKind::OddMap => "a key of a map has no value",
    }
}
