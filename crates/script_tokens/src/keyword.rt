//! The keywords of the grammar.

ghost use Rattle.std.specs.Prelude.{◌≡◌, IfSome, None};
ghost use Rattle.script_tokens.specs.Keywords.{letters, IsNoneOf, head_keywords};
ghost use Rattle.script_tokens.specs.Keywords.{schedule_keywords, item_keywords};
ghost use Rattle.script_tokens.specs.Keywords.{packet_keywords, change_keywords, wait_keywords};
ghost use Rattle.script_tokens.specs.Keywords.{flow_keywords};

/// A keyword of the grammar, or a brace.
#[derive(Clone, Copy, Debug, PartialEq, Eq)]
pub enum Keyword {
    /// `ensemble`
    Ensemble,
    /// `mode`
    Mode,
    /// `period`
    Period,
    /// `notice`
    Notice,
    /// `budget`
    Budget,
    /// `reserve`
    Reserve,
    /// `define`
    Define,
    /// `begin`
    Begin,
    /// `schedule`
    Schedule,
    /// `overlay`
    Overlay,
    /// `while`
    While,
    /// `and`
    And,
    /// `sub`
    Sub,
    /// `at`
    At,
    /// `eep`
    Eep,
    /// `service`
    Service,
    /// `audio`
    Audio,
    /// `in`
    In,
    /// `data`
    Data,
    /// `carry`
    Carry,
    /// `packet`
    Packet,
    /// `groups`
    Groups,
    /// `raw`
    Raw,
    /// `type`
    TypeWord,
    /// `address`
    Address,
    /// `drop`
    Drop,
    /// `component`
    Component,
    /// `move`
    Move,
    /// `rate`
    Rate,
    /// `wait`
    Wait,
    /// `contact`
    Contact,
    /// `closed`
    Closed,
    /// `open`
    Open,
    /// `until`
    Until,
    /// `early`
    Early,
    /// `or`
    Or,
    /// `time`
    Time,
    /// `to`
    To,
    /// `commit`
    Commit,
    /// `join`
    Join,
    /// `settle`
    Settle,
    /// `end`
    End,
    /// `if`
    If,
    /// `else`
    Else,
    /// `repeat`
    Repeat,
    /// `forever`
    Forever,
    /// `apply`
    Apply,
    /// `{`
    OpenBrace,
    /// `}`
    CloseBrace,
}

impl Keyword {
    ghost use Rattle.script_tokens.specs.Keywords.{letters, IsNoKeyword};

    /// The keyword that these bytes spell; None if they spell neither a keyword nor a brace.
    #[tactic(auto, using(crate::proofs::Keys::no_keyword))]
    pub fn of(bytes: &[u8]) -> Option<Keyword>
        ensures found { IfSome result (λ k. bytes.now ≡ letters k) }
        ensures none { result ≡ None → IsNoKeyword bytes.now }
    {
        if let Some(keyword) = find_head(bytes) {
            return Some(keyword);
        }
        if let Some(keyword) = find_schedule(bytes) {
            return Some(keyword);
        }
        if let Some(keyword) = find_item(bytes) {
            return Some(keyword);
        }
        if let Some(keyword) = find_packet(bytes) {
            return Some(keyword);
        }
        if let Some(keyword) = find_change(bytes) {
            return Some(keyword);
        }
        if let Some(keyword) = find_wait(bytes) {
            return Some(keyword);
        }
        find_flow(bytes)
    }
}

// The keywords by subject, one function for each. A `match` compares a token with all its patterns
// by its length and a word or two, where a table takes a comparison of bytes for each; for the
// prover it costs the square of its length.

/// The keyword that these bytes spell, if it is one of the head of a script, up to `begin`.
#[tactic(auto, unfolding(crate::specs::Keywords::letters))]
fn find_head(bytes: &[u8]) -> Option<Keyword>
    ensures found { IfSome result (λ k. bytes.now ≡ letters k) }
    ensures none { result ≡ None → IsNoneOf head_keywords bytes.now }
{
    match bytes {
        b"ensemble" => Some(Keyword::Ensemble),
        b"mode" => Some(Keyword::Mode),
        b"period" => Some(Keyword::Period),
        b"notice" => Some(Keyword::Notice),
        b"budget" => Some(Keyword::Budget),
        b"reserve" => Some(Keyword::Reserve),
        b"define" => Some(Keyword::Define),
        b"begin" => Some(Keyword::Begin),
        _ => None,
    }
}

/// The keyword that these bytes spell, if it is one of a schedule and its overlays.
#[tactic(auto, unfolding(crate::specs::Keywords::letters))]
fn find_schedule(bytes: &[u8]) -> Option<Keyword>
    ensures found { IfSome result (λ k. bytes.now ≡ letters k) }
    ensures none { result ≡ None → IsNoneOf schedule_keywords bytes.now }
{
    match bytes {
        b"schedule" => Some(Keyword::Schedule),
        b"overlay" => Some(Keyword::Overlay),
        b"while" => Some(Keyword::While),
        b"and" => Some(Keyword::And),
        _ => None,
    }
}

/// The keyword that these bytes spell, if it is one of a sub-channel, a service or a component of a
/// service.
#[tactic(auto, unfolding(crate::specs::Keywords::letters))]
fn find_item(bytes: &[u8]) -> Option<Keyword>
    ensures found { IfSome result (λ k. bytes.now ≡ letters k) }
    ensures none { result ≡ None → IsNoneOf item_keywords bytes.now }
{
    match bytes {
        b"sub" => Some(Keyword::Sub),
        b"at" => Some(Keyword::At),
        b"eep" => Some(Keyword::Eep),
        b"service" => Some(Keyword::Service),
        b"audio" => Some(Keyword::Audio),
        b"in" => Some(Keyword::In),
        b"data" => Some(Keyword::Data),
        b"carry" => Some(Keyword::Carry),
        _ => None,
    }
}

/// The keyword that these bytes spell, if it is one of a packet component.
#[tactic(auto, unfolding(crate::specs::Keywords::letters))]
fn find_packet(bytes: &[u8]) -> Option<Keyword>
    ensures found { IfSome result (λ k. bytes.now ≡ letters k) }
    ensures none { result ≡ None → IsNoneOf packet_keywords bytes.now }
{
    match bytes {
        b"packet" => Some(Keyword::Packet),
        b"groups" => Some(Keyword::Groups),
        b"raw" => Some(Keyword::Raw),
        b"type" => Some(Keyword::TypeWord),
        b"address" => Some(Keyword::Address),
        _ => None,
    }
}

/// The keyword that these bytes spell, if it is one of a change or its swap.
#[tactic(auto, unfolding(crate::specs::Keywords::letters))]
fn find_change(bytes: &[u8]) -> Option<Keyword>
    ensures found { IfSome result (λ k. bytes.now ≡ letters k) }
    ensures none { result ≡ None → IsNoneOf change_keywords bytes.now }
{
    match bytes {
        b"drop" => Some(Keyword::Drop),
        b"component" => Some(Keyword::Component),
        b"move" => Some(Keyword::Move),
        b"rate" => Some(Keyword::Rate),
        b"commit" => Some(Keyword::Commit),
        b"join" => Some(Keyword::Join),
        b"settle" => Some(Keyword::Settle),
        _ => None,
    }
}

/// The keyword that these bytes spell, if it is one of the waits and the times of day.
#[tactic(auto, unfolding(crate::specs::Keywords::letters))]
fn find_wait(bytes: &[u8]) -> Option<Keyword>
    ensures found { IfSome result (λ k. bytes.now ≡ letters k) }
    ensures none { result ≡ None → IsNoneOf wait_keywords bytes.now }
{
    match bytes {
        b"wait" => Some(Keyword::Wait),
        b"contact" => Some(Keyword::Contact),
        b"closed" => Some(Keyword::Closed),
        b"open" => Some(Keyword::Open),
        b"until" => Some(Keyword::Until),
        b"early" => Some(Keyword::Early),
        b"or" => Some(Keyword::Or),
        b"time" => Some(Keyword::Time),
        b"to" => Some(Keyword::To),
        _ => None,
    }
}

/// The keyword that these bytes spell, if it is one of control flow, or a brace.
#[tactic(auto, unfolding(crate::specs::Keywords::letters))]
fn find_flow(bytes: &[u8]) -> Option<Keyword>
    ensures found { IfSome result (λ k. bytes.now ≡ letters k) }
    ensures none { result ≡ None → IsNoneOf flow_keywords bytes.now }
{
    match bytes {
        b"end" => Some(Keyword::End),
        b"if" => Some(Keyword::If),
        b"else" => Some(Keyword::Else),
        b"repeat" => Some(Keyword::Repeat),
        b"forever" => Some(Keyword::Forever),
        b"apply" => Some(Keyword::Apply),
        b"{" => Some(Keyword::OpenBrace),
        b"}" => Some(Keyword::CloseBrace),
        _ => None,
    }
}
