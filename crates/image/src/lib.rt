// The image of a netlist: its fields, each where it stands among the bytes. Every reader is total: a field past the
// image's end is 0.
#![tactic(auto)]

ghost use Rattle.std.specs.Prelude.{◌≡◌};
ghost use Rattle.image.specs.Image.{nodes, channels, kind, length_due};
ghost use Rattle.image.specs.Readers.{core_at, wire_at};

use numbers::{byte_at, signed_in};

// A node's fields. The kind is a number: that of a kind in an accepted image, any byte in another.
#[derive(Clone, Copy)]
pub struct Core {
    pub kind: u8,
    pub parameter: i32,
}

// A channel's fields: the nodes at its ends, the input port of the node that it leads to, how many
// relay stations stand on it, and the depth of the queue at its end.
#[derive(Clone, Copy)]
pub struct Wire {
    pub from: u8,
    pub to: u8,
    pub port: u8,
    pub stations: u8,
    pub depth: u8,
}

// Returns N, the number of nodes, given an image: 0 for an empty one.
#[tactic(auto, unfolding(crate::specs::Image::nodes))]
pub fn nodes(image: &[u8]) -> u8
    ensures { result ≡ nodes image.now }
{
    byte_at(image, 0)
}

// Returns C, the number of channels, given an image: 0 for one under two bytes.
#[tactic(auto, unfolding(crate::specs::Image::channels))]
pub fn channels(image: &[u8]) -> u8
    ensures { result ≡ channels image.now }
{
    byte_at(image, 1)
}

// Returns how many bytes an image has by its own N and C.
pub fn length_due(image: &[u8]) -> usize
    ensures { result ≡ length_due image.now }
{
    2 + 5 * nodes(image) as usize + 5 * channels(image) as usize
}

// Returns the number of node n's kind, 0 past the image's end.
#[tactic(auto, unfolding(crate::specs::Image::kind))]
pub fn kind_at(image: &[u8], n: u8) -> u8
    ensures { result ≡ kind image.now n }
{
    byte_at(image, 2 + n as usize)
}

// Returns node n's fields, each 0 past the image's end.
#[tactic(auto, unfolding(crate::specs::Readers::core_at, crate::specs::Image::parameter))]
pub fn core_at(image: &[u8], n: u8) -> Core
    ensures { result ≡ core_at image.now n }
{
    let at = 2 + nodes(image) as usize + 4 * n as usize;
    Core {
        kind: kind_at(image, n),
        parameter: signed_in(image, at),
    }
}

// Returns channel c's fields, each 0 past the image's end.
#[tactic(auto, unfolding(crate::specs::Readers::wire_at, crate::specs::Image::from, crate::specs::Image::to, crate::specs::Image::port, crate::specs::Image::stations, crate::specs::Image::depth, crate::specs::Image::wire, crate::specs::Image::depths))]
pub fn wire_at(image: &[u8], c: u8) -> Wire
    ensures { result ≡ wire_at image.now c }
{
    let i = c as usize;
    let wires = 2 + 5 * nodes(image) as usize;
    let wire = wires + 3 * i;
    let depths = wires + 3 * channels(image) as usize + 2 * i;
    Wire {
        from: byte_at(image, wire),
        to: byte_at(image, wire + 1),
        port: byte_at(image, wire + 2),
        stations: byte_at(image, depths),
        depth: byte_at(image, depths + 1),
    }
}
