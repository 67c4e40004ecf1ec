//! A frame that was shipped.

ghost use Rattle.std.specs.Prelude.{◌≡◌, ◌↔◌, ◌<◌, IfOk, IfErr, IsErrOf, length};
ghost use Rattle.std.specs.FinMap.{entries};
ghost use Rattle.trace_wire.specs.declared.fault.WireFault.TheVariants.{Memory};
ghost use Rattle.trace_wire.specs.Frames.{frame_of, HasFrame, payload, longest};
ghost use Rattle.trace_world.specs.Refusals.{IsFrameFault};
ghost use Rattle.trace_world.specs.Worlds.{IsFrame};

use crate::letter::Letter;
use crate::sheet::Sheet;
use crate::step::WorldFault;
use std::alloc::{AllocError, Global};
use std::marker::Model;
use std::sync::Arc;
use trace_know::Knowledge;
use trace_wire::{WireFault, frame_laws, read_frame, write_frame};

/// The frame of what a node knew, by one or more owners.
#[derive(Drop)]
pub(crate) struct Mail {
    frame: Arc<Sheet>,
}

impl Model for Mail {
    ghost use Rattle.std.specs.Prelude.{List, ℕ};
    ghost use Rattle.trace_world.specs.Worlds.{IsFrame};

    ghost Value = { List ℕ };

    ghost view = { λ m. m.frame.value.bytes.items };

    ghost invariant = { λ m. IsFrame m.frame.value.bytes.items };
}

impl Mail {
    /// The frame of all that is known.
    pub(crate) fn of(alloc: Global, know: &Knowledge) -> Result<Mail, WorldFault>
        ensures ok { IfOk result (λ m. (m ≡ frame_of know.now) × HasFrame (entries know.now)) }
        ensures err { IfErr result (λ fault. IsFrameFault know.now fault) }
    {
        let mut frame = Sheet::new(alloc);
        match write_frame(know, &mut frame) {
            Ok(()) => Mail::holding(alloc, frame),
            Err(WireFault::Length) => Err(WorldFault::FrameLength),
            // a sheet fails only where it can't grow
            Err(WireFault::Write) => Err(WorldFault::Memory),
            // `write_frame` takes no memory and reads nothing
            Err(_) => unreachable!(),
        }
    }

    /// A frame with one owner.
    fn holding(alloc: Global, frame: Sheet) -> Result<Mail, WorldFault>
        requires { IsFrame frame.bytes.items }
        ensures ok { IfOk result (λ m. m ≡ frame.bytes.items) }
        ensures err { IfErr result (λ fault. fault ≡ WorldFault.Memory) }
    {
        match Arc::new(alloc, frame) {
            Ok(frame) => Ok(Mail { frame }),
            Err(_) => Err(WorldFault::Memory),
        }
    }

    /// Another owner of the same value. Nothing is copied.
    pub(crate) fn try_clone(&self) -> Result<Mail, AllocError>
        ensures { IfOk result (λ m. m ≡ self.now) }
    {
        Ok(Mail {
            frame: Arc::try_clone(&self.frame)?,
        })
    }

    /// Tells that it is a frame. It does nothing: it is for proofs.
    pub(crate) fn known(&self)
        ensures { IsFrame self.now }
    {
        let _ = &self.frame;
    }

    /// What was known when it was shipped.
    pub(crate) fn open(&self, alloc: Global) -> Result<Knowledge, AllocError>
        ensures { IfOk result (λ know. (self.now ≡ frame_of know) × HasFrame (entries know)) }
    {
        frame_laws();
        let mut letter = Letter::new(self.frame.bytes());
        match read_frame(alloc, &mut letter) {
            Ok(know) => Ok(know),
            // a mail is a frame, which nothing refuses, and a letter doesn't fail
            Err(fault) => Err(want_of_memory(fault)),
        }
    }
}

/// The fault of a reading that can lack nothing but memory.
fn want_of_memory(_fault: WireFault) -> AllocError
    requires { _fault ≡ Memory }
{
    AllocError
}
