// The words of a line that stand for numbers, and the two that put a record into its group.
ghost use Rattle.std.specs.Prelude.{◌≡◌, ◌+◌, ◌≤◌, ◌<◌, length, IfOk};
ghost use Rattle.script_model.specs.Arguments.{has_count, force_bit, group_bits, group_number};
ghost use Rattle.script_model.specs.Arguments.{write_count, u16_at, u32_at, u64_at, count_at};

use crate::keyword::is_text;
use crate::line::Line;
use crate::number::number;
use script_model::ScriptCause;

impl<'a> Line<'a> {
    #[tactic(auto, unfolding(script_model::specs::Arguments::has_count))]
    pub fn has_count(&self, count: usize) -> Result<(), ScriptCause>
        ensures value { result ≡ has_count count self.now }
        ensures count { IfOk result (λ _. length self.now ≡ count) }
    {
        if self.count() == count {
            Ok(())
        } else {
            Err(ScriptCause::WrongCount)
        }
    }

    /// What the group words after the first `count` words add to the command.
    #[tactic(auto, unfolding(script_model::specs::Arguments::group_bits))]
    pub fn group_bits(&self, count: usize) -> Result<u32, ScriptCause>
        requires { count < 10 }
        ensures value { result ≡ group_bits count self.now }
        ensures bits { IfOk result (λ bits. bits ≤ 0xc00) }
        ensures least { IfOk result (λ _. count ≤ length self.now) }
        ensures most { IfOk result (λ _. count < length self.now → length self.now ≡ count + 2) }
    {
        if self.count() == count {
            Ok(0)
        } else if self.count() == count + 2 {
            if is_text(self.word(count), "member") {
                Ok(0x800)
            } else if is_text(self.word(count), "last") {
                Ok(0xc00)
            } else {
                Err(ScriptCause::WrongCount)
            }
        } else {
            Err(ScriptCause::WrongCount)
        }
    }

    #[tactic(auto, unfolding(script_model::specs::Arguments::group_number))]
    pub fn group_number(&self, count: usize) -> Result<u16, ScriptCause>
        requires few { count < 10 }
        requires least { count ≤ length self.now }
        requires most { count < length self.now → length self.now ≡ count + 2 }
        ensures { result ≡ group_number count self.now }
    {
        if self.count() == count {
            Ok(0)
        } else {
            Ok(number(self.word(count + 1), 0, 7)? as u16)
        }
    }

    /// How many words of a write stand before those of its group: seven where it is forced, as a
    /// line of seven or nine words is.
    pub fn write_count(&self) -> usize
        ensures value { result ≡ write_count self.now }
        ensures few { result ≤ 7 }
    {
        if matches!(self.count(), 7 | 9) { 7 } else { 6 }
    }

    /// What the word `force` adds to the command of a write.
    #[tactic(auto, unfolding(script_model::specs::Arguments::force_bit))]
    pub fn force_bit(&self) -> Result<u32, ScriptCause>
        ensures value { result ≡ force_bit self.now }
        ensures bit { IfOk result (λ bit. bit ≤ 0x1000) }
    {
        if !matches!(self.count(), 7 | 9) {
            Ok(0)
        } else if is_text(self.word(6), "force") {
            Ok(0x1000)
        } else {
            Err(ScriptCause::WrongCount)
        }
    }

    pub fn u16_at(&self, index: usize) -> Result<u16, ScriptCause>
        requires { index < length self.now }
        ensures { result ≡ u16_at self.now index }
    {
        Ok(number(self.word(index), 0, 0xffff)? as u16)
    }

    pub fn u32_at(&self, index: usize) -> Result<u32, ScriptCause>
        requires { index < length self.now }
        ensures { result ≡ u32_at self.now index }
    {
        Ok(number(self.word(index), 0, 0xffff_ffff)? as u32)
    }

    pub fn u64_at(&self, index: usize) -> Result<u64, ScriptCause>
        requires { index < length self.now }
        ensures { result ≡ u64_at self.now index }
    {
        number(self.word(index), 0, 0xffff_ffff_ffff_ffff)
    }

    pub fn count_at(&self, index: usize) -> Result<u32, ScriptCause>
        requires { index < length self.now }
        ensures { result ≡ count_at self.now index }
    {
        Ok(number(self.word(index), 1, 4096)? as u32)
    }
}
