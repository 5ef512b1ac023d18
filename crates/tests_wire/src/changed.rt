//! Frames, each octet of which is set to each value.

use amqp_frames::FrameView;
use amqp_perf::Performative;
use std::alloc::{AllocError, Global};

/// How many of the frames there are of which this came.
#[derive(Clone, Copy)]
struct Counts {
    readings: u32,
    frame_faults: u32,
    performative_faults: u32,
    /// The size grew, and more octets are awaited.
    not_whole: u32,
    /// More octets are awaited, though the size is no larger.
    others: u32,
}

/// What is read of the octets where one of them is another, each one and each of its 256 values.
pub(crate) fn told(alloc: Global, limit: u32, octets: &[u8]) -> Result<String, AllocError> {
    let mut counts = Counts {
        readings: 0,
        frame_faults: 0,
        performative_faults: 0,
        not_whole: 0,
        others: 0,
    };
    for (place, known) in octets.iter().enumerate() {
        let mut changed = octets.to_vec(alloc)?;
        counts.set_each(changed.as_mut_slice(), limit, place, *known);
    }
    format!(in alloc;
        "{} readings, {} faults of frames, {} of performatives, {} not whole, {} others",
        counts.readings,
        counts.frame_faults,
        counts.performative_faults,
        counts.not_whole,
        counts.others
    )
}

impl Counts {
    /// Counts what is read where the octet of this place has each value; it was known as this one.
    fn set_each(&mut self, octets: &mut [u8], limit: u32, place: usize, known: u8) {
        for value in 0..=u8::MAX {
            if let Some(octet) = octets.get_mut(place) {
                *octet = value;
            }
            let count = self.of(octets, limit, place < 4 && value > known);
            *count = count.saturating_add(1);
        }
    }

    /// The count of what is read of these octets, whose size is larger than they are or not.
    fn of(&mut self, octets: &[u8], limit: u32, is_grown: bool) -> &mut u32 {
        match FrameView::read(octets, limit) {
            Ok(Some((frame, _))) => match Performative::read(frame.body()) {
                Ok(_) => &mut self.readings,
                Err(_) => &mut self.performative_faults,
            },
            Ok(None) if is_grown => &mut self.not_whole,
            Ok(None) => &mut self.others,
            Err(_) => &mut self.frame_faults,
        }
    }
}
