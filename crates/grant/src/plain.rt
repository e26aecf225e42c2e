// A grant's twelve plain bytes, written and read. Numbers stand big end first.

ghost use Rattle.std.specs.Prelude.{◌≡◌, true};
ghost use Rattle.rights.specs.Rights.{is_right};
ghost use Rattle.grant.specs.Grants.{plain_grant, contractor_in, count_in, size_block_in, right_in, is_marked, is_grant};

use rights::is_right;

#[tactic(auto, unfolding(crate::specs::Grants::plain_grant))]
pub fn plain_grant(contractor: u32, count: u16, size_block: u32, right: u32) -> [u8; 12]
    requires { is_right right ≡ true }
    ensures { result ≡ plain_grant contractor count size_block right }
{
    let c = numbers::two_bytes(contractor);
    let n = numbers::two_bytes(count as u32);
    let b = numbers::four_bytes(size_block);
    [
        c[0],
        c[1],
        n[0],
        n[1],
        b[0],
        b[1],
        b[2],
        b[3],
        right as u8,
        71,
        82,
        68,
    ]
}

#[tactic(auto, unfolding(crate::specs::Grants::contractor_in))]
pub fn contractor_in(p: &[u8; 12]) -> u32
    ensures { result ≡ contractor_in p.now }
{
    numbers::four_from(0, 0, p[0], p[1])
}

#[tactic(auto, unfolding(crate::specs::Grants::count_in))]
pub fn count_in(p: &[u8; 12]) -> u16
    ensures { result ≡ count_in p.now }
{
    numbers::two_from(p[2], p[3])
}

#[tactic(auto, unfolding(crate::specs::Grants::size_block_in))]
pub fn size_block_in(p: &[u8; 12]) -> u32
    ensures { result ≡ size_block_in p.now }
{
    numbers::four_from(p[4], p[5], p[6], p[7])
}

pub fn right_in(p: &[u8; 12]) -> u32
    ensures { result ≡ right_in p.now }
{
    numbers::four_from(0, 0, 0, p[8])
}

#[tactic(auto, unfolding(crate::specs::Grants::is_marked))]
fn is_marked(p: &[u8; 12]) -> bool
    ensures { result ≡ is_marked p.now }
{
    p[9] == 71 && (p[10] == 82 && p[11] == 68)
}

// A whole grant: mark, contractor and right.
#[tactic(auto, unfolding(crate::specs::Grants::is_grant))]
pub fn is_grant(p: &[u8; 12]) -> bool
    ensures { result ≡ is_grant p.now }
{
    is_marked(p) && (roll::is_contractor(contractor_in(p)) && is_right(right_in(p)))
}
