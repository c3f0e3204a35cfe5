// The judge's tests of an image whose length fits its sizes. Each is settled over all nodes or all
// channels before the next is looked at. All but `contents` and `feed_ports` ask for nothing: what lies
// past the image's end is 0.
ghost use Rattle.std.specs.Prelude.{◌≡◌, IfOk};
ghost use Rattle.laws.specs.Below.{any_below, sum_below};
ghost use Rattle.laws.specs.Choice.{◌if◌else◌};
ghost use Rattle.refusal.specs.Number.{number_of};
ghost use Rattle.image.specs.Image.{channels, stations};
ghost use Rattle.verdict.specs.Judge.{bad_kind, bad_wire, bad_port, bad_stations, bad_depth, judge, depth_number, sizes_number, contents_number};
ghost use Rattle.image.specs.Loops.Ports.{Wired};
ghost use Rattle.verdict.specs.Loops.Passes.{fed_below, twice_below, misses};

use image::{channels, kind_at, nodes, wire_at};
use kinds::{inputs, no_kind};
use refusal::Refusal;

// Whether number 4 has a cause at node n.
#[tactic(auto, unfolding(crate::specs::Judge::bad_kind))]
fn bad_kind(image: &[u8], n: u8) -> bool
    ensures { result ≡ bad_kind image.now n }
{
    no_kind(kind_at(image, n))
}

// Whether number 5 has a cause at channel c.
#[tactic(auto, unfolding(crate::specs::Judge::bad_wire, image::specs::Readers::wire_at))]
fn bad_wire(image: &[u8], c: u8) -> bool
    ensures { result ≡ bad_wire image.now c }
{
    let nodes = nodes(image);
    let wire = wire_at(image, c);
    (nodes <= wire.from) | (nodes <= wire.to)
}

// Whether number 6 has a cause at channel c.
#[tactic(auto, unfolding(crate::specs::Judge::bad_port, image::specs::Readers::wire_at))]
fn bad_port(image: &[u8], c: u8) -> bool
    ensures { result ≡ bad_port image.now c }
{
    let wire = wire_at(image, c);
    inputs(kind_at(image, wire.to)) <= wire.port
}

// Returns which ports are fed, 3 places a node as the definition has them, or refusal 7 if one is fed
// twice.
fn feed_ports(image: &[u8]) -> Result<[bool; 192], Refusal>
    requires { Wired image.now (channels image.now) }
    ensures number { number_of result ≡ (7 if twice_below image.now (channels image.now) else 0) }
    ensures fed { IfOk result (λ ports. ports ≡ fed_below image.now (channels image.now)) }
{
    let c = channels(image);
    let mut ports = [false; 192];
    for i in 0..c {
        let w = wire_at(image, i);
        let at = 3 * w.to as usize + w.port as usize;
        if ports[at] {
            return Err(Refusal::FedTwice);
        }
        ports[at] = true;
    }
    Ok(ports)
}

// Whether number 8 has a cause at node n: a port of it is not among those that are fed.
#[tactic(auto, unfolding(crate::specs::Loops::Passes::misses))]
fn misses_port(image: &[u8], ports: &[bool; 192], n: u8) -> bool
    ensures { result ≡ misses image.now ports.now n }
{
    let first = 3 * n as usize;
    (0..inputs(kind_at(image, n))).any(|p| {
        !ports.get(first + p as usize).copied().unwrap_or(false)
    })
}

// Whether number 9 has a cause at channel c.
#[tactic(auto, unfolding(crate::specs::Judge::bad_stations, image::specs::Readers::wire_at))]
fn bad_stations(image: &[u8], c: u8) -> bool
    ensures { result ≡ bad_stations image.now c }
{
    8 < wire_at(image, c).stations
}

// Whether number 10 has a cause at channel c.
#[tactic(auto, unfolding(crate::specs::Judge::bad_depth, image::specs::Readers::wire_at))]
fn bad_depth(image: &[u8], c: u8) -> bool
    ensures { result ≡ bad_depth image.now c }
{
    let depth = wire_at(image, c).depth;
    (depth < 1) | (8 < depth)
}

// Returns how many stations stand on all channels, for number 11. No `sum`: that each addition fits is
// the loop's invariant.
#[tactic(auto, unfolding(image::specs::Readers::wire_at))]
fn all_stations(image: &[u8]) -> u32
    ensures { result ≡ sum_below (stations image.now) (channels image.now) }
{
    let mut total = 0;
    for c in 0..channels(image) {
        total += wire_at(image, c).stations as u32;
    }
    total
}

// Returns `Ok`, or the first of the refusals 9 to 11 that has a cause in the image.
#[tactic(auto, unfolding(crate::specs::Judge::depth_number))]
fn judge_depths(image: &[u8]) -> Result<(), Refusal>
    ensures { number_of result ≡ depth_number image.now }
{
    let channels = channels(image);
    if (0..channels).any(|c| bad_stations(image, c)) {
        return Err(Refusal::Stations);
    }
    if (0..channels).any(|c| bad_depth(image, c)) {
        return Err(Refusal::Depth);
    }
    if 256 < all_stations(image) {
        return Err(Refusal::Total);
    }
    Ok(())
}

// Returns `Ok`, or the first of the refusals 4 to 11 that has a cause, given an image in which 1 to 3
// have none.
pub(crate) fn contents(image: &[u8]) -> Result<(), Refusal>
    requires { sizes_number image.now ≡ 0 }
    ensures { number_of result ≡ contents_number image.now }
{
    let nodes = nodes(image);
    let channels = channels(image);
    if (0..nodes).any(|n| bad_kind(image, n)) {
        return Err(Refusal::Kind);
    }
    if (0..channels).any(|c| bad_wire(image, c)) {
        return Err(Refusal::Wire);
    }
    if (0..channels).any(|c| bad_port(image, c)) {
        return Err(Refusal::Port);
    }
    let ports = feed_ports(image)?;
    if (0..nodes).any(|n| misses_port(image, &ports, n)) {
        return Err(Refusal::NotFed);
    }
    judge_depths(image)
}
