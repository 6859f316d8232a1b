//! Classes of bytes: those that an automaton need not tell apart share a class, and so a column of its table.
ghost use Rattle.std.specs.Prelude.{◌≡◌, ℕ, ◌+◌, ◌<◌, ◌≤◌, false, [], ◌∷◌, ◌++◌, if◌then◌else◌, IfOk, OnOk, EachIndex, slice_index, slice_index_or};
ghost use Rattle.rx_search.specs.ByteClasses.{AreClasses, class_of, alphabet_len, IsLeastPower, AreRepresentatives, is_edge_or_end};

use rx_memory::Memory;
use std::alloc::Global;
use std::marker::Model;

/// The class of each byte. Classes are numbered from 0 on, in the order of their bytes, and each is a range of bytes.
/// A contract sees them as a list.
#[derive(Clone, Copy)]
pub struct ByteClasses {
    classes: [u8; 256],
}

impl Model for ByteClasses {
    ghost use Rattle.std.specs.Prelude.{List, ℕ};
    ghost use Rattle.rx_search.specs.ByteClasses.{AreClasses};

    ghost Value = { List ℕ };

    ghost view = { λ c. c.classes };

    ghost invariant = { λ c. AreClasses c.classes };

    ghost inverse = { λ classes. record { classes = classes } };
}

impl ByteClasses {
    /// One class of all bytes.
    pub fn empty() -> ByteClasses
        ensures classes { AreClasses result }
        ensures value { EachIndex result (λ b. slice_index result b ≡ 0) }
    {
        ByteClassSet::new().byte_classes()
    }

    /// A class for each byte.
    pub fn singletons() -> ByteClasses
        ensures classes { AreClasses result }
        ensures value { EachIndex result (λ b. slice_index result b ≡ b) }
    {
        let mut classes = [0; 256];
        for byte in 0..256 {
            classes[byte] = byte as u8;
        }
        ByteClasses { classes }
    }

    /// The class of the byte.
    pub fn get(&self, byte: u8) -> u8
        ensures { result ≡ slice_index self.now byte }
    {
        self.classes[byte as usize]
    }

    /// How many classes there are, with one more for the end of input, which comes last.
    pub fn alphabet_len(&self) -> usize
        ensures value { result ≡ alphabet_len self.now }
        ensures small { result ≤ 257 }
    {
        self.classes[255] as usize + 2
    }

    /// The least k for which 2 to the k is `alphabet_len` or more.
    pub fn stride2(&self) -> usize
        ensures { IsLeastPower (alphabet_len self.now) result }
    {
        let len = self.alphabet_len();
        let mut power = 1;
        let mut exponent = 0;
        while power < len {
            power *= 2;
            exponent += 1;
        }
        exponent
    }

    /// One byte of each class, its least one, in the order of the classes.
    pub fn representatives(&self, alloc: Global) -> Result<Vec<u8>, Memory>
        ensures { IfOk result (λ bytes. AreRepresentatives self.now bytes.items) }
    {
        let mut bytes = Vec::new(alloc);
        for byte in 0..256 {
            let is_new = self.classes[byte] as usize == bytes.len();
            push_if(&mut bytes, byte as u8, is_new)?;
        }
        Ok(bytes)
    }
}

/// Appends the byte, if it is to be.
fn push_if(bytes: &mut Vec<u8>, byte: u8, yes: bool) -> Result<(), Memory>
    ensures { OnOk result (bytes.new.items ≡ (if yes then bytes.old.items ++ byte ∷ [] else bytes.old.items)) }
{
    if yes {
        bytes.push(byte)?;
    }
    Ok(())
}

/// The class after this one, where it ends, and else this one.
fn next_class(class: u8, ends: bool) -> u8
    requires { class < 255 }
    ensures { result ≡ class + (if ends then 1 else 0) }
{
    if ends { class + 1 } else { class }
}

/// Where classes of bytes end: behind the bytes that are marked.
#[derive(Clone, Copy)]
pub struct ByteClassSet {
    ends: [bool; 256],
}

impl Model for ByteClassSet {
    ghost use Rattle.std.specs.Prelude.{List, Bool};

    ghost Value = { List Bool };

    ghost view = { λ s. s.ends };

    ghost inverse = { λ ends. record { ends = ends } };
}

impl ByteClassSet {
    /// No byte is told from another.
    pub fn new() -> ByteClassSet
        ensures { (b : ℕ) → slice_index_or result b false ≡ false }
    {
        ByteClassSet { ends: [false; 256] }
    }

    /// Tells the bytes from `start` to `end`, both included, from all others.
    pub fn set_range(&mut self, start: u8, end: u8)
        ensures { (b : ℕ) → b < 256 → slice_index_or self.new b false ≡ is_edge_or_end start end self.old b }
    {
        if start > 0 {
            self.ends[start as usize - 1] = true;
        }
        self.ends[end as usize] = true;
    }

    /// The classes of the bytes that are not told apart.
    pub fn byte_classes(&self) -> ByteClasses
        ensures classes { AreClasses result }
        ensures value { EachIndex result (λ b. slice_index result b ≡ class_of (λ e. slice_index_or self.now e false) b) }
    {
        let mut classes = [0; 256];
        let mut class = 0;
        for byte in 0..255 {
            let next = next_class(class, self.ends[byte]);
            classes[byte + 1] = next;
            class = next;
        }
        ByteClasses { classes }
    }
}
