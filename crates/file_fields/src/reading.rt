//! A text that is read from its front.

ghost use Rattle.std.specs.Prelude.{◌≡◌, ◌≤◌, ◌^◌, length};
ghost use Rattle.std.specs.Int.{w8, w16, w32, w64};
ghost use Rattle.file_fields.specs.Forms as forms;
ghost use Rattle.file_fields.specs.Reads.{Reads};

use c3_base::{NoMemory, get_u16, get_u32, get_u64};
use std::marker::Model;

/// Why a value was not read.
#[derive(Clone, Copy, Debug, PartialEq, Eq)]
pub enum ReadFault {
    /// A field isn't right, or isn't whole.
    Wrong,
    NoMemory,
}

impl From<NoMemory> for ReadFault {
    ghost use Rattle.std.specs.Prelude.{◌≡◌};
    ghost use Rattle.file_fields.specs.declared.reading.ReadFault.TheVariants.{NoMemory};

    ghost from_gives = { λ _ e. e ≡ NoMemory };

    fn from(_: NoMemory) -> Self {
        ReadFault::NoMemory
    }
}

/// What is left of a text. After a fault it begins with the field that isn't right.
#[derive(Drop)]
pub struct Reading<'a> {
    left: &'a [u8],
}

impl<'a> Model for Reading<'a> {
    ghost use Rattle.std.specs.Prelude.{List, ℕ};

    ghost Value = { List ℕ };

    ghost view = { λ r. r.left.now };
}

impl<'a> Reading<'a> {
    pub fn new(text: &'a [u8]) -> Self
        ensures { result ≡ text.now }
    {
        Reading { left: text }
    }

    /// How many bytes are left.
    pub fn len(&self) -> usize
        ensures { result ≡ length self.now }
    {
        self.left.len()
    }

    /// Takes these bytes.
    #[tactic(auto, unfolding(crate::specs::Forms::exactly))]
    pub fn exactly(&mut self, word: &[u8]) -> Result<(), ReadFault>
        ensures { Reads (forms.exactly word.now) self.old self.new result }
    {
        if self.left.len() < word.len() {
            return Err(ReadFault::Wrong);
        }
        if &self.left[..word.len()] != word {
            return Err(ReadFault::Wrong);
        }
        self.left = &self.left[word.len()..];
        Ok(())
    }

    /// Takes a number from `least` to `most`.
    #[tactic(auto, unfolding(crate::specs::Forms::number))]
    pub fn u8(&mut self, least: u8, most: u8) -> Result<u8, ReadFault>
        ensures { Reads (forms.number w8 least most) self.old self.new result }
    {
        match self.left {
            [first, rest @ ..] if least <= *first && *first <= most => {
                self.left = rest;
                Ok(*first)
            }
            _ => Err(ReadFault::Wrong),
        }
    }

    #[tactic(auto, unfolding(crate::specs::Forms::number))]
    pub fn u16(&mut self, least: u16, most: u16) -> Result<u16, ReadFault>
        ensures { Reads (forms.number w16 least most) self.old self.new result }
    {
        if self.left.len() < 2 {
            return Err(ReadFault::Wrong);
        }
        let number = get_u16(self.left, 0);
        if number < least || most < number {
            return Err(ReadFault::Wrong);
        }
        self.left = &self.left[2..];
        Ok(number)
    }

    #[tactic(auto, unfolding(crate::specs::Forms::number))]
    pub fn u32(&mut self, least: u32, most: u32) -> Result<u32, ReadFault>
        ensures { Reads (forms.number w32 least most) self.old self.new result }
    {
        if self.left.len() < 4 {
            return Err(ReadFault::Wrong);
        }
        let number = get_u32(self.left, 0);
        if number < least || most < number {
            return Err(ReadFault::Wrong);
        }
        self.left = &self.left[4..];
        Ok(number)
    }

    #[tactic(auto, unfolding(crate::specs::Forms::number))]
    pub fn u64(&mut self, least: u64, most: u64) -> Result<u64, ReadFault>
        ensures { Reads (forms.number w64 least most) self.old self.new result }
    {
        if self.left.len() < 8 {
            return Err(ReadFault::Wrong);
        }
        let number = get_u64(self.left, 0);
        if number < least || most < number {
            return Err(ReadFault::Wrong);
        }
        self.left = &self.left[8..];
        Ok(number)
    }

    #[tactic(auto, unfolding(crate::specs::Forms::signed))]
    pub fn i64(&mut self, least: i64, most: i64) -> Result<i64, ReadFault>
        ensures { Reads (forms.signed least most) self.old self.new result }
    {
        if self.left.len() < 8 {
            return Err(ReadFault::Wrong);
        }
        let number = get_u64(self.left, 0).cast_signed();
        if number < least || most < number {
            return Err(ReadFault::Wrong);
        }
        self.left = &self.left[8..];
        Ok(number)
    }
}
