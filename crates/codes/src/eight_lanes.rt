// Eight lanes side by side: 30 octets, octet k place k of each lane, lane i in bit i. A step of the division is one on
// all eight. What comes of it are six octets: octet n holds check place 24 + n of each lane, lane i in bit i.
ghost use Rattle.std.specs.Prelude.{◌≡◌, ◌<◌, take};
ghost use Rattle.codes.specs.Lanes.{lane_of, check_octets};
ghost use Rattle.codes.specs.Inner.{lack_octets};

// The check octets of the first 24 octets.
pub(crate) fn checks(octets: &[u8; 30]) -> [u8; 6]
    ensures { result ≡ check_octets (take 24 octets.now) }
{
    let mut s = [0; 6];
    for octet in &octets[..24] {
        let t = s[5] ^ octet;
        s = [t, s[0] ^ t, s[1] ^ t, s[2] ^ t, s[3], s[4] ^ t];
    }
    s
}

// What the last six octets lack of being the check octets of the others.
pub(crate) fn lacks(octets: &[u8; 30]) -> [u8; 6]
    ensures { result ≡ lack_octets octets.now }
{
    let mut s = checks(octets);
    for (n, octet) in octets[24..].iter().enumerate() {
        s[n] ^= *octet;
    }
    s
}

// Lane i of six octets.
pub(crate) fn gather(s: &[u8; 6], i: usize) -> u32
    requires { i < 8 }
    ensures { result ≡ lane_of i s.now }
{
    let mut lane = 0;
    for (n, octet) in s.iter().enumerate() {
        lane += u32::from(*octet >> i) % 2 << n;
    }
    lane
}
