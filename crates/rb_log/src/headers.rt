//! Writing the header of a log.
ghost use Rattle.std.specs.Prelude.{◌≡◌};
ghost use Rattle.rb_rules.specs.Lawful.{IsNodeOf};
ghost use Rattle.rb_log.specs.Header.{common_bytes, has_first_form, header_of};

use arrayvec::ArrayVec;
use byteorder::{BigEndian, ByteOrder};
use rb_base::NodeName;
use rb_plan::{Feasible, Plan};
use rb_rules::Version;

const FIRST_FORM: [u8; 4] = *b"RBL1";

const SECOND_FORM: [u8; 4] = *b"RBL2";

// What follows the magic in both forms.
fn common_bytes(plan: &Feasible, node: NodeName) -> [u8; 46]
    ensures { result ≡ common_bytes plan.now node }
{
    let Plan {
        u,
        r,
        dmin,
        dmax,
        l,
        h,
        v,
        z,
        c,
        p,
        ..
    } = *plan.plan();
    let (kind, index) = match node {
        NodeName::Biu(index) => (0, index),
        NodeName::Rmu(index) => (1, index),
    };
    let mut bytes = [0; 46];
    bytes[0] = plan.shape().biu();
    bytes[1] = plan.shape().rmu();
    BigEndian::write_u16(&mut bytes[2..4], plan.shape().slots());
    BigEndian::write_u32_into(&[u, r, dmin, dmax, l, h, v, z, c, p], &mut bytes[4..44]);
    bytes[44] = kind;
    bytes[45] = index;
    bytes
}

// Whether the version is One and nothing lapses.
fn has_first_form(plan: &Plan) -> bool
    ensures { result ≡ has_first_form plan.now }
{
    match plan.version {
        Version::One => plan.probation == 0,
        Version::Two { .. } => false,
    }
}

/// The header of a log: 50 bytes if the version of messages is One and accusations do not lapse,
/// else 54. The node is one of the bus.
#[tactic(auto, unfolding(crate::specs::Header::header_of))]
pub fn header(plan: &Feasible, node: NodeName) -> ArrayVec<u8, 54>
    requires { IsNodeOf plan.now.sizes node }
    ensures { result.items ≡ header_of plan.now node }
{
    let common = common_bytes(plan, node);
    let mut bytes = [0; 54];
    bytes[4..50].copy_from_slice(&common);
    if has_first_form(plan.plan()) {
        bytes[..4].copy_from_slice(&FIRST_FORM);
        let mut header = ArrayVec::from(bytes);
        header.truncate(50);
        return header;
    }
    bytes[..4].copy_from_slice(&SECOND_FORM);
    let (version, bus) = match plan.plan().version {
        Version::One => (1, 0),
        Version::Two { bus } => (2, bus),
    };
    bytes[50] = version;
    bytes[51] = bus;
    BigEndian::write_u16(&mut bytes[52..54], plan.plan().probation);
    ArrayVec::from(bytes)
}
