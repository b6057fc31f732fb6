// Who is there: how many servers, how many of them may be faulty, and which have lied so far.
ghost use Rattle.std.specs.Prelude.{◌≡◌, ◌+◌, ◌<◌, ◌≤◌, true, false, ◌&&◌, ◌||◌, is_some, length, replicate, if◌then◌else◌, IfSome, nat_le, nat_lt, slice_index_or, slice_set};

use choice::servers::Servers;

// How many have lied stays beside who has: that they are no more than may be faulty is then the type's own, and a lie is refused without a count.
#[derive(Drop)]
pub(crate) struct Cast {
    servers: Servers,
    liars: u8,
    lied: [bool; 10],
    ghost fewer: { servers.faulty < servers.many },
    ghost few: { liars ≤ servers.faulty },
    ghost ten: { length lied ≡ 10 },
}

impl Cast {
    // One to ten servers, of which fewer may be faulty; nobody has lied yet.
    pub(crate) fn new(servers: u64, faulty: u64) -> Option<Cast>
        ensures range { is_some result ≡ (nat_le servers 10 && nat_lt faulty servers) }
        ensures servers { IfSome result (λ c. c.servers.many ≡ servers) }
        ensures faulty { IfSome result (λ c. c.servers.faulty ≡ faulty) }
        ensures liars { IfSome result (λ c. c.liars ≡ 0) }
        ensures lied { IfSome result (λ c. c.lied ≡ replicate 10 false) }
    {
        if servers > 10 || faulty >= servers {
            return None;
        }
        Some(Cast {
            servers: Servers::new(servers as u8, faulty as u8)?,
            liars: 0,
            lied: [false; 10],
        })
    }

    pub(crate) fn servers(&self) -> Servers
        ensures value { result ≡ self.now.servers }
    {
        self.servers
    }

    // Whether there is such a server.
    pub(crate) fn has(&self, server: u64) -> bool
        ensures value { result ≡ nat_lt server self.now.servers.many }
    {
        server < u64::from(self.servers.many())
    }

    // Whether a server has lied.
    fn has_lied(&self, server: u64) -> bool
        ensures value { result ≡ slice_index_or self.now.lied server false }
    {
        server < 10 && self.lied[server as usize]
    }

    // Whether a server may lie: it has before, or fewer have than may be faulty.
    pub(crate) fn may_lie(&self, server: u64) -> bool
        ensures value { result ≡ (slice_index_or self.now.lied server false || nat_lt self.now.liars self.now.servers.faulty) }
    {
        self.has_lied(server) || self.liars < self.servers.faulty()
    }

    // Notes that a server lied, if it is there and may.
    pub(crate) fn lie(&mut self, server: u64)
        ensures servers { self.new.servers ≡ self.old.servers }
        ensures lied { server < self.old.servers.many → (slice_index_or self.old.lied server false || nat_lt self.old.liars self.old.servers.faulty) ≡ true → self.new.lied ≡ slice_set self.old.lied server true }
        ensures liars { server < self.old.servers.many → (slice_index_or self.old.lied server false || nat_lt self.old.liars self.old.servers.faulty) ≡ true → self.new.liars ≡ self.old.liars + (if slice_index_or self.old.lied server false then 0 else 1) }
    {
        if server >= 10 || self.has_lied(server) || !self.may_lie(server) {
            return;
        }
        self.lied[server as usize] = true;
        self.liars += 1;
    }
}
