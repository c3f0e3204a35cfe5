// The shell's side of a channel, by value: the queue at its end, and the pending bit at its start.
//
// A queue's functions push and pop on the record, for any record; `after_of` says what they do to one
// that `queue_of` wrote, at every depth. The channel as a whole is a definition (specs/Channel.antt),
// which the engine's loops follow part by part. Its law is `channel_fifo`: its tokens after a cycle
// are those before, less the first if its to node fires, and then the new one if its from node fires.
#![tactic(auto)]

ghost use Rattle.std.specs.Prelude.{[], ◌++◌, ◌≡◌, ◌<◌};
ghost use Rattle.relay.specs.Link.{token, link_of, passing};
ghost use Rattle.shell.specs.Queue.{waiting, queue_of, full, pushed, popped, queue_after};
ghost use Rattle.shell.specs.Channel.{blocked, pending_after};

use relay::Link;

// A queue: its tokens from the first place on, oldest first. A place that holds none is 0.
// The project's rules name this form: an array of eight and a count, as a station's of two.
#[derive(Clone, Copy)]
pub struct Queue {
    pub tokens: [i32; 8],
    pub count: u8,
}

impl Queue {
    // How many tokens the deepest queue has places for.
    pub const DEPTH: u8 = 8;

    // Returns a queue that holds no token. `default()` would say less.
    #[tactic(auto, unfolding(crate::specs::Queue::queue_of, laws::specs::Lists::padded))]
    pub fn empty() -> Self
        ensures { result ≡ queue_of [] }
    {
        Queue {
            tokens: [0; 8],
            count: 0,
        }
    }

    // Returns whether the queue is full, given its depth: if so, it stops the link that arrives.
    #[tactic(auto, unfolding(crate::specs::Queue::full))]
    pub fn full(self, depth: u8) -> bool
        ensures { result ≡ full depth self.count }
    {
        depth <= self.count
    }

    // Returns what the queue's node has to take, given the link that arrives: the oldest token of the
    // queue, or with an empty queue the one on the link.
    #[tactic(auto, using(relay::specs::Laws::Link::link_own, crate::specs::Laws::Queue::link_waiting), unfolding(crate::specs::Queue::waiting))]
    pub fn input(self, link: Link) -> Link
        ensures { result ≡ link_of (waiting self ++ token link) }
    {
        if self.count == 0 {
            return link;
        }
        Some(self.tokens[0])
    }

    // Returns the queue with the link's token behind the others, if that passes and there is a place.
    #[tactic(auto, using(crate::specs::Laws::Queue::push_flag))]
    fn pushed(self, link: Link, stop: bool) -> Self
        ensures { result ≡ pushed self (passing (token link) stop) }
    {
        let mut queue = self;
        let count = self.count;
        if let Some(token) = link
            && !stop
            && count < Queue::DEPTH
        {
            queue.tokens[count as usize] = token;
            queue.count = count + 1;
        }
        queue
    }

    // Returns the queue without its oldest token.
    fn popped(self) -> Self
        requires { 0 < self.count }
        ensures { result ≡ popped self }
    {
        let mut tokens = self.tokens;
        tokens.copy_within(1.., 0);
        tokens[7] = 0;
        Queue {
            tokens,
            count: self.count - 1,
        }
    }

    // Returns the queue after a cycle, given the link that arrives, the stop on that link, and whether
    // the queue's node fires.
    #[tactic(auto, unfolding(crate::specs::Queue::queue_after))]
    pub fn after(self, link: Link, stop: bool, fires: bool) -> Self
        ensures { result ≡ queue_after self (passing (token link) stop) fires }
    {
        if !fires {
            return self.pushed(link, stop);
        }
        if self.count == 0 {
            return self;
        }
        self.popped().pushed(link, stop)
    }
}

// Returns whether a pending token keeps its node from firing, given the stop on link 0. A stop on a void
// link does not.
#[tactic(auto, unfolding(crate::specs::Channel::blocked))]
pub fn blocked(pending: bool, stop: bool) -> bool
    ensures { result ≡ blocked pending stop }
{
    pending & stop
}

// Returns whether a token is pending after a cycle, given whether one was, the stop on link 0, and
// whether the from node fires.
#[tactic(auto, unfolding(crate::specs::Channel::pending_after))]
pub fn pending_after(pending: bool, stop: bool, fires: bool) -> bool
    ensures { result ≡ pending_after pending stop fires }
{
    fires | blocked(pending, stop)
}
