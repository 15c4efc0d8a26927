// The packet kind of request: what arrives at the gateway.
// Its fields are source and destination address, source and destination port, and protocol.
ghost use Rattle.std.specs.Prelude.{◌≡◌, ℕ, true, List, [], ◌∷◌, slice_index_or};
ghost use Rattle.std.proofs.Common.{rules};
ghost use Rattle.rules.specs.Intervals.{within};
ghost use Rattle.rules.specs.Kinds.{MadeFrom};
ghost use Rattle.rules.proofs.Making.{same_test};
ghost use Rattle.kinds.specs.Packets.{packet_ranges};

use rules::decline::Decline;
use rules::interval::{Interval, of_field};
use rules::kind::RequestKind;

// The range of each field, in order.
const RANGES: [Interval; 5] = [
    Interval {
        lower: 0,
        upper: 4294967295,
    },
    Interval {
        lower: 0,
        upper: 4294967295,
    },
    Interval {
        lower: 0,
        upper: 65535,
    },
    Interval {
        lower: 0,
        upper: 65535,
    },
    Interval {
        lower: 0,
        upper: 255,
    },
];

#[derive(Clone, Copy, PartialEq, Eq, Debug)]
pub struct Packet {
    source: u32,
    destination: u32,
    sport: u16,
    dport: u16,
    protocol: u8,
    ghost ranged: { within packet_ranges (source ∷ destination ∷ sport ∷ dport ∷ protocol ∷ []) ≡ true },
}

impl Packet {
    // Declined 9 where a value lies outside its field's range.
    pub fn new(
        source: u32,
        destination: u32,
        sport: u32,
        dport: u32,
        protocol: u32,
    ) -> Result<Packet, Decline>
        ensures { MadeFrom packet_ranges (λ q. q.source ∷ q.destination ∷ q.sport ∷ q.dport ∷ q.protocol ∷ []) (source ∷ destination ∷ sport ∷ dport ∷ protocol ∷ []) result }
    {
        Ok(Packet {
            source,
            destination,
            sport: u16::try_from(sport).map_err(|_| Decline::NotOfKind)?,
            dport: u16::try_from(dport).map_err(|_| Decline::NotOfKind)?,
            protocol: u8::try_from(protocol).map_err(|_| Decline::NotOfKind)?,
        })
    }

    pub fn source(&self) -> u32
        ensures { result ≡ self.now.source }
    {
        self.source
    }

    pub fn destination(&self) -> u32
        ensures { result ≡ self.now.destination }
    {
        self.destination
    }

    pub fn sport(&self) -> u16
        ensures { result ≡ self.now.sport }
    {
        self.sport
    }

    pub fn dport(&self) -> u16
        ensures { result ≡ self.now.dport }
    {
        self.dport
    }

    pub fn protocol(&self) -> u8
        ensures { result ≡ self.now.protocol }
    {
        self.protocol
    }
}

impl RequestKind for Packet {
    ghost ranges = { packet_ranges };

    ghost values = { λ q. q.source ∷ q.destination ∷ q.sport ∷ q.dport ∷ q.protocol ∷ [] };

    const FIELDS: usize = 5;

    ghost FIELDS = { 5 };

    ghost counted = { Prim.search rules };

    ghost ranged = { Prim.search rules };

    ghost valued = { Prim.search rules };

    // A packet is no more than its values.
    ghost determined = { λ p q e.
        let at : ℕ → List ℕ → ℕ = λ k vs. slice_index_or vs k 0 in
        λ i. record {
          source = at 0 (e i);
          destination = at 1 (e i);
          sport = at 2 (e i);
          dport = at 3 (e i);
          protocol = at 4 (e i);
          ranged = same_test (λ j. within packet_ranges (at 0 (e j) ∷ at 1 (e j) ∷ at 2 (e j) ∷ at 3 (e j) ∷ at 4 (e j) ∷ [])) p.ranged q.ranged i;
        } };

    fn range(field: usize) -> Option<Interval> {
        of_field(&RANGES, field)
    }

    fn value(&self, field: usize) -> Option<u32> {
        match field {
            1 => Some(self.source),
            2 => Some(self.destination),
            3 => Some(u32::from(self.sport)),
            4 => Some(u32::from(self.dport)),
            5 => Some(u32::from(self.protocol)),
            _ => None,
        }
    }

    fn make(given: &[u32]) -> Result<Packet, Decline> {
        let [source, destination, sport, dport, protocol] = given else {
            return Err(Decline::NotOfKind);
        };
        Packet::new(*source, *destination, *sport, *dport, *protocol)
    }
}
