// An image that the judge accepts, as a type: who holds one need not ask again.
#![tactic(auto)]

ghost use Rattle.std.specs.Prelude.{◌≡◌};
ghost use Rattle.refusal.specs.Number.{number_of};
ghost use Rattle.verdict.specs.Judge.{judge};

use image::{Core, Wire};
use refusal::Refusal;

// An accepted image.
#[derive(Clone, Copy)]
pub struct Netlist<'a> {
    pub image: &'a [u8],
    ghost accepted: { judge image.now ≡ 0 },
}

impl<'a> Netlist<'a> {
    ghost use Rattle.std.specs.Prelude.{◌≤◌, ◌<◌, IfOk};
    ghost use Rattle.image.specs.Image.{nodes, channels};
    ghost use Rattle.image.specs.Readers.{core_at, wire_at, wires, Placed};

    // Returns the image as a netlist, given one that the judge accepts; given any other, the judge's
    // refusal, 1 to 11.
    pub fn judged(image: &'a [u8]) -> Result<Netlist<'a>, Refusal>
        ensures number { number_of result ≡ judge image.entry.now }
        ensures same { IfOk result (λ netlist. netlist.image ≡ image.entry) }
    {
        verdict::judge(image)?;
        Ok(Netlist { image })
    }

    // Returns N, the number of nodes.
    #[tactic(auto, using(verdict::specs::Laws::Accepted::nodes_few))]
    pub fn nodes(self) -> u8
        ensures value { result ≡ nodes self.entry.image.now }
        ensures few { result ≤ 64 }
    {
        image::nodes(self.image)
    }

    // Returns C, the number of channels.
    #[tactic(auto, using(verdict::specs::Laws::Accepted::channels_few))]
    pub fn channels(self) -> u8
        ensures value { result ≡ channels self.entry.image.now }
        ensures few { result ≤ 96 }
    {
        image::channels(self.image)
    }

    // Returns node n's fields, each 0 past the image's end.
    pub fn core(self, n: u8) -> Core
        ensures { result ≡ core_at self.entry.image.now n }
    {
        image::core_at(self.image, n)
    }

    // Returns channel c's fields, each 0 past the image's end.
    #[tactic(auto, using(verdict::specs::Laws::Accepted::wire_placed))]
    pub fn wire(self, c: u8) -> Wire
        ensures value { result ≡ wire_at self.entry.image.now c }
        ensures placed { c < channels self.entry.image.now → Placed result }
    {
        image::wire_at(self.image, c)
    }

    // Returns the fields of all channels, each at the place of its number, and zeros past the last: for
    // whoever reads them often. By index, since the image is asked for each channel by its number.
    #[tactic(auto, unfolding(image::specs::Readers::wires))]
    pub fn wires(self) -> [Wire; 96]
        ensures { result ≡ wires self.entry.image.now }
    {
        // By hand: only this array wants a wire of zeros, and its definition names them.
        let none = Wire {
            from: 0,
            to: 0,
            port: 0,
            stations: 0,
            depth: 0,
        };
        let mut wires = [none; 96];
        for c in 0..self.channels() {
            wires[c as usize] = self.wire(c);
        }
        wires
    }
}
