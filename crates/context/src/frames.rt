// Instructions on the frame: markers, calls, covers, and the registers of the frame.
ghost use Rattle.std.specs.Prelude.{◌≡◌};
ghost use Rattle.frame.specs.Fields.{word_of, PartsOfWord};
ghost use Rattle.context.specs.Records.{top_of};
ghost use Rattle.context.specs.Scenes.{StackAlone};
ghost use Rattle.context.specs.Frames.{called, covered, rotated_frame, reset_frame, previous_set, previous_answer, position_of};
ghost use Rattle.context.specs.Frames.{write_file, copy_file, add_file, read_answer, summed, one_register, two_registers, three_registers};

use super::marker_of;
use super::refusals::Refusal;
use super::sound::Context;
use frame::FrameMarker;
use register::{Kind, Slot, put_register, register_at};

impl Context {
    // The marker of the frame. The three markers are three questions: one with a parameter would need a type that names them.
    pub fn marker(&self) -> FrameMarker
        ensures word { word_of result ≡ self.now.stack.marker }
        ensures parts { PartsOfWord result self.now.stack.marker }
    {
        marker_of(self.stack.marker)
    }

    // The previous marker, of the frame that a return goes back to.
    pub fn previous_marker(&self) -> FrameMarker
        ensures word { word_of result ≡ self.now.stack.previous }
        ensures parts { PartsOfWord result self.now.stack.previous }
    {
        marker_of(self.stack.previous)
    }

    // The marker that the last cover saved.
    pub fn saved_marker(&self) -> FrameMarker
        ensures word { word_of result ≡ self.now.stack.saved }
        ensures parts { PartsOfWord result self.now.stack.saved }
    {
        marker_of(self.stack.saved)
    }

    // The first position above the frame.
    pub fn top(&self) -> u32
        ensures { result ≡ top_of self.now.stack }
    {
        self.stack.base + self.marker().sof()
    }

    // Call: the locals go below base, and the rest of the frame is the new frame.
    pub fn call(&mut self)
        ensures { StackAlone called self.old self.new }
    {
        let marker = self.marker();
        let outs = marker.sof() - marker.sol();
        self.stack.previous = self.stack.marker;
        self.stack.base += marker.sol();
        self.stack.marker = u64::from(outs);
    }

    // Cover: the whole frame goes below base, its marker is saved, and the frame is empty.
    pub fn cover(&mut self)
        ensures { StackAlone covered self.old self.new }
    {
        let top = self.top();
        self.stack.saved = self.stack.marker;
        self.stack.base = top;
        self.stack.marker = 0;
    }

    // Rotates the rotating registers by one. This and the next stay two: a function that is passed the change is no shorter.
    pub fn rotate(&mut self)
        ensures { StackAlone rotated_frame self.old self.new }
    {
        let mut marker = self.marker();
        marker.rotate();
        self.stack.marker = u64::from(marker);
    }

    // Sets the rotation to zero.
    pub fn reset_rotation(&mut self)
        ensures { StackAlone reset_frame self.old self.new }
    {
        let mut marker = self.marker();
        marker.reset_rotation();
        self.stack.marker = u64::from(marker);
    }

    // Sets the previous marker from its word.
    pub fn set_previous(&mut self, word: u64) -> Result<(), Refusal>
        ensures answer { result ≡ previous_answer word }
        ensures after { StackAlone (λ r. previous_set r word) self.old self.new }
    {
        let _ = FrameMarker::try_from(word)?;
        self.stack.previous = word;
        Ok(())
    }

    // The position of a register of the frame.
    pub fn position(&self, register: u64) -> Result<u64, Refusal>
        ensures { result ≡ position_of self.now.stack register }
    {
        let offset = self.marker().place(register).ok_or(Refusal::Register)?;
        Ok(u64::from(self.stack.base) + u64::from(offset))
    }

    // Writes the content of a word, and a NaT bit.
    pub fn write<K: Kind>(
        &self,
        slots: &mut [Slot<K>],
        register: u64,
        word: u64,
        nat: bool,
    ) -> Result<(), Refusal>
        ensures answer { result ≡ one_register self.now.stack register }
        ensures file { slots.new ≡ write_file K.content_of self.now.stack slots.old register word nat }
    {
        let position = self.position(register)?;
        put_register(
            slots,
            position,
            Slot {
                content: K::of_word(word),
                nat,
            },
        );
        Ok(())
    }

    // Copies a register to another.
    pub fn copy<K: Kind>(
        &self,
        slots: &mut [Slot<K>],
        target: u64,
        source: u64,
    ) -> Result<(), Refusal>
        ensures answer { result ≡ two_registers self.now.stack target source }
        ensures file { slots.new ≡ copy_file K.zero_content self.now.stack slots.old target source }
    {
        let to = self.position(target)?;
        let from = self.position(source)?;
        put_register(slots, to, register_at(slots, from));
        Ok(())
    }

    // Sums two registers into another; the NaT bit is set if either was.
    pub fn add<K: Kind>(
        &self,
        slots: &mut [Slot<K>],
        target: u64,
        left: u64,
        right: u64,
    ) -> Result<(), Refusal>
        ensures answer { result ≡ three_registers self.now.stack target left right }
        ensures file { slots.new ≡ add_file K.zero_content K.sum_of self.now.stack slots.old target left right }
    {
        let to = self.position(target)?;
        let first = self.position(left)?;
        let second = self.position(right)?;
        let a = register_at(slots, first);
        let b = register_at(slots, second);
        put_register(slots, to, sum_of(a, b));
        Ok(())
    }

    // The register's content and NaT bit.
    pub fn read<K: Kind>(&self, slots: &[Slot<K>], register: u64) -> Result<Slot<K>, Refusal>
        ensures { result ≡ read_answer K.zero_content self.now.stack slots.now register }
    {
        Ok(register_at(slots, self.position(register)?))
    }
}

// The sum of two registers; its NaT bit is set if either was.
fn sum_of<K: Kind>(a: Slot<K>, b: Slot<K>) -> Slot<K>
    ensures { result ≡ summed K.sum_of a b }
{
    Slot {
        content: a.content.sum(b.content),
        nat: a.nat || b.nat,
    }
}
