//! The items of sessions.
ghost use Rattle.std.specs.Prelude.{◌≡◌};
ghost use Rattle.syn_model.specs.Event.{is_below, is_same_token};
ghost use Rattle.syn_history.specs.Events.{token_of};

/// An item of a session: what a replacement is made under, once.
#[derive(Clone, Copy, Debug)]
pub struct Token {
    /// The number of the session, from 1.
    pub session: u64,
    /// The index of the item in the session's plan, from 0.
    pub item: u32,
}

impl Token {
    /// Whether this token comes before the other: tokens go by session, and then by item.
    pub fn is_below(&self, other: &Token) -> bool
        ensures { result ≡ is_below (token_of self.now) (token_of other.now) }
    {
        self.session < other.session || self.session == other.session && self.item < other.item
    }

    /// Whether the two are one.
    pub fn is_same(&self, other: &Token) -> bool
        ensures { result ≡ is_same_token (token_of self.now) (token_of other.now) }
    {
        self.session == other.session && self.item == other.item
    }
}
