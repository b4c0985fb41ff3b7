ghost use Rattle.std.specs.Prelude.{◌≡◌, Some};
ghost use Rattle.book.specs.declared.fault.Fault.TheVariants.{Network};
ghost use Rattle.network.specs.Sides.{size_below};
ghost use Rattle.book.specs.Grounds.{fault_number, fault_layer, layer_above, layer_word};

use netfile::NetworkFault;
use network::Flow;
use std::fmt;

// Flat: the four layers are published side by side, and the definition of a fault's layer names each.
/// The layer that speaks a denial.
#[derive(Debug, Clone, Copy, PartialEq, Eq)]
pub enum Layer {
    OfFile,
    OfRecord,
    OfNetwork,
    OfBook,
}

impl From<netfile::Layer> for Layer {
    ghost from_gives = { λ l r. r ≡ layer_above l };

    fn from(layer: netfile::Layer) -> Layer {
        match layer {
            netfile::Layer::File => Layer::OfFile,
            netfile::Layer::Record => Layer::OfRecord,
            netfile::Layer::Network => Layer::OfNetwork,
        }
    }
}

impl fmt::Display for Layer {
    ghost output = { λ l. Some (layer_word l) };

    fn fmt<W: fmt::Write>(&self, f: &mut fmt::Formatter<W>) -> fmt::Result {
        f.write_str(match self {
            Layer::OfFile => "file",
            Layer::OfRecord => "record",
            Layer::OfNetwork => "network",
            Layer::OfBook => "book",
        })
    }
}

/// Why a call on the book was denied, with what comes along. A fault of the file is carried whole.
#[derive(Debug, Clone, Copy, PartialEq, Eq)]
pub enum Fault {
    AlreadyOpen,
    Network(NetworkFault),
    NoSuchSite(u16),
    SameSite,
    LevelOutOfRange,
    NumbersSpent,
    TooFewRoutes(Flow),
    NoSuchBooking,
    ShortList,
}

/// The answer to a cut question: the level of two sites, a side that shows it, and how many sites are in that side.
#[derive(Debug, Clone, Copy, PartialEq, Eq)]
pub struct Cut {
    pub level: usize,
    pub side: u64,
    pub size: u32,
}

impl From<Flow> for Cut {
    ghost from_gives = { λ f c. (c.level ≡ f.value) × (c.side ≡ f.side) × (c.size ≡ size_below 64 f.side) };

    fn from(flow: Flow) -> Cut {
        Cut {
            level: flow.value,
            side: flow.side,
            size: flow.side.count_ones(),
        }
    }
}

impl From<NetworkFault> for Fault {
    ghost from_gives = { λ e r. r ≡ Network e };

    fn from(e: NetworkFault) -> Fault {
        Fault::Network(e)
    }
}

impl Fault {
    /// The published number of the check that applies.
    pub fn number(self) -> u8
        ensures { result ≡ fault_number self }
    {
        match self {
            Fault::AlreadyOpen => 1,
            Fault::Network(fault) => fault.number(),
            Fault::NoSuchSite(_) => 10,
            Fault::SameSite => 11,
            Fault::LevelOutOfRange => 12,
            Fault::NumbersSpent => 13,
            Fault::TooFewRoutes(_) => 14,
            Fault::NoSuchBooking => 15,
            Fault::ShortList => 16,
        }
    }

    /// The layer that it comes from.
    pub fn layer(self) -> Layer
        ensures { result ≡ fault_layer self }
    {
        match self {
            Fault::Network(fault) => fault.layer().into(),
            _ => Layer::OfBook,
        }
    }
}
