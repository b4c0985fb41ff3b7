ghost use Rattle.std.specs.Prelude.{◌≡◌, Some};
ghost use Rattle.netfile.specs.Faults.{layer_name, number_of, layer_of, place_of};
ghost use Rattle.netfile.specs.Faults.{file_number, file_place};
ghost use Rattle.netfile.specs.declared.faults.NetworkFault.TheVariants.{Record};
ghost use Rattle.netfile.specs.declared.faults.RecordFault.TheVariants.{File};

use std::fmt;

/// Which part of the reader a fault comes from.
#[derive(Debug, Clone, Copy, PartialEq, Eq)]
pub enum Layer {
    File,
    Record,
    Network,
}

impl fmt::Display for Layer {
    ghost output = { λ l. Some (layer_name l) };

    fn fmt<W: fmt::Write>(&self, f: &mut fmt::Formatter<W>) -> fmt::Result {
        f.write_str(match self {
            Layer::File => "file",
            Layer::Record => "record",
            Layer::Network => "network",
        })
    }
}

/// What can be wrong with header and parts. A fault whose place is not fixed carries it: the first byte at fault.
#[derive(Debug, Clone, Copy, PartialEq, Eq)]
pub enum FileFault {
    Size,
    Signature,
    Edition,
    PairCount,
    PartBounds(usize),
    PartLength(usize),
}

/// A fault of the file, or a record whose number is not above the one before it.
#[derive(Debug, Clone, Copy, PartialEq, Eq)]
pub enum RecordFault {
    File(FileFault),
    NotRising(usize),
}

/// A fault of the records, or a line that does not join two different sites of the file.
#[derive(Debug, Clone, Copy, PartialEq, Eq)]
pub enum NetworkFault {
    Record(RecordFault),
    Ends(usize),
}

impl From<FileFault> for RecordFault {
    ghost from_gives = { λ e r. r ≡ File e };

    fn from(e: FileFault) -> RecordFault {
        RecordFault::File(e)
    }
}

impl From<RecordFault> for NetworkFault {
    ghost from_gives = { λ e r. r ≡ Record e };

    fn from(e: RecordFault) -> NetworkFault {
        NetworkFault::Record(e)
    }
}

impl FileFault {
    fn number(self) -> u8
        ensures { result ≡ file_number self }
    {
        match self {
            FileFault::Size => 2,
            FileFault::Signature => 3,
            FileFault::Edition => 4,
            FileFault::PairCount => 5,
            FileFault::PartBounds(_) => 6,
            FileFault::PartLength(_) => 7,
        }
    }

    fn place(self) -> usize
        ensures { result ≡ file_place self }
    {
        match self {
            FileFault::Size | FileFault::Signature => 0,
            FileFault::Edition => 4,
            FileFault::PairCount => 5,
            FileFault::PartBounds(place) | FileFault::PartLength(place) => place,
        }
    }
}

impl NetworkFault {
    /// The published number of the check that applies.
    pub fn number(self) -> u8
        ensures { result ≡ number_of self }
    {
        match self {
            NetworkFault::Record(RecordFault::File(fault)) => fault.number(),
            NetworkFault::Record(RecordFault::NotRising(_)) => 8,
            NetworkFault::Ends(_) => 9,
        }
    }

    /// The layer that found it.
    pub fn layer(self) -> Layer
        ensures { result ≡ layer_of self }
    {
        match self {
            NetworkFault::Record(RecordFault::File(_)) => Layer::File,
            NetworkFault::Record(RecordFault::NotRising(_)) => Layer::Record,
            NetworkFault::Ends(_) => Layer::Network,
        }
    }

    /// The first byte at fault, counted from 0.
    pub fn place(self) -> usize
        ensures { result ≡ place_of self }
    {
        match self {
            NetworkFault::Record(RecordFault::File(fault)) => fault.place(),
            NetworkFault::Record(RecordFault::NotRising(place)) => place,
            NetworkFault::Ends(place) => place,
        }
    }
}
