// Relay stations, by value: a link, and one station in a cycle. What a row of them does is defined here
// too; the engine and the row bench walk their rows themselves, each station by `Station::after`.
//
// In the definitions a station is the list of the tokens that it holds, oldest first, and a link the
// list of the token that it shows: one, or none. So what passes on a link is `passing link stop`, with
// no case for void links, and the FIFO law asks nothing of counts: what leaves a row, then what is in
// it after the cycle, is what was in it, then what entered (`row_fifo`).
//
// A record carries the same tokens: `held` reads them, and `station_of` writes them with every unused
// place 0. Any record may be handed in: a count over two is read as two, and tokens that are not held
// are not looked at.
//
// Both walks work each station from the row as it was, with the same laws by index (`after-at`,
// `leaving-at`, `stopped_inside`, `stopped_end`).
#![tactic(auto)]

ghost use Rattle.std.specs.Prelude.{[], ◌∷◌, ◌≡◌};
ghost use Rattle.laws.specs.Lists.{holds_two};
ghost use Rattle.relay.specs.Link.{token, link_of, reading};
ghost use Rattle.relay.specs.Station.{held, station_of, clear, place_after};

// What a link shows: a token, or none while it is void.
pub type Link = Option<i32>;

// A reading, what a trace says of a link: its letter, an ASCII capital, and the value beside it. No
// `Option`: the C interface hands letters and values out in arrays of bytes and of numbers.
#[derive(Clone, Copy)]
pub struct Reading {
    pub letter: u8,
    pub value: i32,
}

// A relay station: its tokens from the first place on, oldest first. A place that holds none is 0.
// The project's rules name this form: an array of two and a count.
#[derive(Clone, Copy)]
pub struct Station {
    pub tokens: [i32; 2],
    pub count: u8,
}

impl Reading {
    // Returns the reading of a link, given whether it is stopped.
    #[tactic(auto, unfolding(crate::specs::Link::reading, crate::specs::Link::letter))]
    pub fn of(link: Link, stop: bool) -> Self
        ensures { result ≡ reading link stop }
    {
        let letter = match (link, stop) {
            (Some(_), true) => b'R',
            (Some(_), false) => b'T',
            (None, true) => b'S',
            (None, false) => b'I',
        };
        Reading {
            letter,
            value: link.unwrap_or(0),
        }
    }
}

impl Station {
    // How many tokens a station has places for.
    pub const DEPTH: u8 = 2;

    // How many stations a row has at most.
    pub const ROW: usize = 8;

    // Returns a station that holds no token. `default()` would say less.
    #[tactic(auto, unfolding(crate::specs::Station::station_of, laws::specs::Lists::padded))]
    pub fn empty() -> Self
        ensures { result ≡ station_of [] }
    {
        Station {
            tokens: [0; 2],
            count: 0,
        }
    }

    #[tactic(auto, unfolding(crate::specs::Station::station_of, laws::specs::Lists::padded))]
    fn one(token: i32) -> Self
        ensures { result ≡ station_of (token ∷ []) }
    {
        Station {
            tokens: [token, 0],
            count: 1,
        }
    }

    #[tactic(auto, unfolding(crate::specs::Station::station_of, laws::specs::Lists::padded))]
    fn pair(older: i32, newer: i32) -> Self
        ensures { result ≡ station_of (older ∷ newer ∷ []) }
    {
        Station {
            tokens: [older, newer],
            count: 2,
        }
    }

    // Returns the link that leaves the station: its oldest token, or none while it is empty.
    #[tactic(auto, using(crate::specs::Laws::Station::held_none, crate::specs::Laws::Station::link_held))]
    pub fn link(self) -> Link
        ensures { result ≡ link_of (held self) }
    {
        if self.count == 0 {
            return None;
        }
        Some(self.tokens[0])
    }

    // Returns whether the station holds two tokens, which stops the link that enters it.
    #[tactic(auto, using(crate::specs::Laws::Station::full_held))]
    pub fn full(self) -> bool
        ensures { result ≡ holds_two (held self) }
    {
        Station::DEPTH <= self.count
    }

    // Returns whether every place of the station that holds no token is 0. Two places, two tests: a loop
    // is no plainer.
    #[tactic(auto, using(laws::specs::Laws::Signed::zero_bits), unfolding(laws::specs::Lists::zero_from, laws::specs::Below::all_below))]
    pub fn clear(self) -> bool
        ensures { result ≡ clear self }
    {
        let count = self.count;
        let [first, second] = self.tokens;
        ((0 < count) | (first == 0)) & ((1 < count) | (second == 0))
    }

    // Returns the station after a cycle, given the link that enters it and the stop on the one that
    // leaves it. A count over two is read as two, and a token that is not held is not looked at.
    #[tactic(auto, using(crate::specs::Laws::Station::after_kept, crate::specs::Laws::Station::held_two, crate::specs::Laws::Station::after_clear), unfolding(crate::specs::Station::place_after))]
    pub fn after(self, link: Link, stop: bool) -> Self
        ensures { result ≡ station_of (place_after (token link) (held self) stop) }
    {
        let count = self.count;
        let [oldest, newer] = self.tokens;
        if Station::DEPTH <= count {
            if stop {
                return Station::pair(oldest, newer);
            }
            return Station::one(newer);
        }
        if (count == 1) & stop {
            return match link {
                Some(token) => Station::pair(oldest, token),
                None => Station::one(oldest),
            };
        }
        match link {
            Some(token) => Station::one(token),
            None => Station::empty(),
        }
    }
}
