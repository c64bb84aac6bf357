// Why a call, a step, a claim or what a host asked for is refused.
ghost use Rattle.std.specs.Prelude.{◌≡◌};
ghost use Rattle.graph.specs.Refused.{refusal_number};

// The refusals of docs/RULES.md, section 5, in the order of their numbers.
#[derive(Clone, Copy, Debug, PartialEq, Eq)]
pub enum Refusal {
    // The image has another length.
    WrongLength = 1,
    // The bytes are the image of no session.
    NotAnImage = 2,
    // The line is none of the forms.
    NotALine = 10,
    // A number that stands for a key is none.
    NotAKey = 11,
    // More than eight targets, or not strictly rising.
    BadTargets = 12,
    // Nodes and waiting adds are 64.
    NoMoreAdds = 13,
    // 64 calls are live.
    TooManyLive = 14,
    // Each label was given.
    NoMoreLabels = 15,
    // No node has the key.
    NoNode = 20,
    // No call waits, or there is no such unit.
    NoUnit = 21,
    // The step is not allowed there.
    NotAllowed = 22,
    // The label was never given.
    NeverGiven = 30,
    // The call is pending.
    StillPending = 31,
    // The result was claimed.
    AlreadyClaimed = 32,
    // The output is too short for the result's line, or the listing.
    ShortOutput = 33,
    // The output is too short for the page, or the lines of one.
    ShortForPage = 34,
    // The bytes are no page.
    NotAPage = 35,
    // No map undoes a map whose a is even.
    EvenMultiplier = 40,
    // More than 64 lines are asked for.
    LoadTooLong = 46,
    // The output is too short for the lines.
    ShortForLoad = 47,
}

impl Refusal {
    // The number by which a host is told of it.
    pub fn number(self) -> u32
        ensures { result ≡ refusal_number self }
    {
        self as u32
    }
}
