// A request, why one is closed, and why a nonce fits none.
ghost use Rattle.std.specs.Prelude.{◌≡◌, ◌<◌, ◌≤◌, All, map, nat_le};
ghost use Rattle.requests.specs.Request.{alike, is_for, later_by, over};

// A request is pending for ten seconds, and for 64 moments.
const TEN_SECONDS: u64 = 10_000_000;

const MOMENTS: u8 = 64;

// A request: the server that was asked, the nonce that was sent to it, the local clock's count then, and the moments since it was asked, or since it was closed.
#[derive(Clone, Copy)]
pub struct Request {
    pub server: u8,
    pub nonce: [u8; 32],
    pub count: u64,
    pub since: u8,
}

// Why a request is closed: at this count it is too old, 64 moments came since, or all are closed.
// It stays an enum: with a test handed in, each contract of closing would have to say for every request what the test answers, in place of `over why`.
#[derive(Clone, Copy)]
pub enum Over {
    Age(u64),
    Far,
    Any,
}

// Why a nonce of a server fits no pending request: it is not known, or its reply comes too late.
#[derive(Clone, Copy, Debug, PartialEq, Eq)]
pub enum Unfit {
    Unknown,
    Late,
}

impl Request {
    // Whether 64 moments came since.
    pub(crate) fn is_far(&self) -> bool
        ensures value { result ≡ nat_le 64 self.now.since }
    {
        self.since >= MOMENTS
    }

    // Whether this nonce was sent to this server. The two stay apart: an asking brings them apart, and a type for the pair would be made anew for each call.
    pub(crate) fn is_for(&self, server: u8, nonce: &[u8; 32]) -> bool
        ensures value { result ≡ is_for server nonce.now self.now }
    {
        self.server == server && self.nonce == *nonce
    }

    // Whether it is not far and has the server and the count of another.
    pub(crate) fn is_like(&self, other: &Request) -> bool
        ensures value { result ≡ alike other.now self.now }
    {
        self.server == other.server && self.count == other.count && !self.is_far()
    }
}

impl Over {
    // Whether a request is over.
    pub(crate) fn is_over(self, request: &Request) -> bool
        ensures value { result ≡ over self request.now }
    {
        match self {
            Over::Age(count) => count.saturating_sub(request.count) > TEN_SECONDS,
            Over::Far => request.is_far(),
            Over::Any => true,
        }
    }
}

// One moment later for each.
pub(crate) fn all_later(requests: &mut [Request])
    requires { All (λ q. q.since ≤ 64) requests.old }
    ensures after { requests.new ≡ map later_by requests.old }
{
    for request in requests.iter_mut() {
        request.since += 1;
    }
}
