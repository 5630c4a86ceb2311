//! The parts of the plants but for their thrusters.
ghost use Rattle.std.specs.Prelude.{◌≡◌, ◌≤◌, [], ◌∷◌, codes, length, IsTrue};
ghost use Rattle.plant_model.specs.Names.{is_name};
ghost use Rattle.plant_model.specs.declared.parts.Member.TheVariants.{Generator as GeneratorMember};
ghost use Rattle.plant_model.specs.declared.parts.Member.TheVariants.{Section};
ghost use Rattle.plant_model.specs.declared.parts.Member.TheVariants.{Thruster as ThrusterMember};

use arrayvec::ArrayVec;
use plant_model::limits::{MOST_GENERATORS, MOST_GROUPS, MOST_SECTIONS, MOST_TIES};
use plant_model::name::Name;
use plant_model::parts::{Generator, Group, Member, Tie};

pub(crate) fn name(text: &[u8]) -> Name
    requires { IsTrue (is_name text.now) }
    ensures { result ≡ text.now }
{
    Name::of(text).unwrap()
}

/// Three sections.
pub(crate) fn sections() -> ArrayVec<Name, MOST_SECTIONS>
    ensures { result.items ≡ codes "A" ∷ codes "B" ∷ codes "C" ∷ [] }
{
    let mut sections = ArrayVec::new();
    sections.push(name(b"A"));
    sections.push(name(b"B"));
    sections.push(name(b"C"));
    sections
}

fn tie(text: &[u8], first: u32, second: u32) -> Tie
    requires { IsTrue (is_name text.now) }
    ensures { result ≡ record { name = text.now; first = first; second = second } }
{
    Tie {
        name: name(text),
        first,
        second,
    }
}

/// A tie between A and B, and one between B and C.
pub(crate) fn ties() -> ArrayVec<Tie, MOST_TIES>
    ensures { result.items ≡ record { name = codes "T1"; first = 0; second = 1 }
        ∷ record { name = codes "T2"; first = 1; second = 2 } ∷ [] }
{
    let mut ties = ArrayVec::new();
    ties.push(tie(b"T1", 0, 1));
    ties.push(tie(b"T2", 1, 2));
    ties
}

fn generator(text: &[u8], section: u32, power: u32) -> Generator
    requires { IsTrue (is_name text.now) }
    ensures { result ≡ record { name = text.now; section = section; power = power } }
{
    Generator {
        name: name(text),
        section,
        power,
    }
}

/// 4000 kW on A, and twice 2000 kW on B.
pub(crate) fn three_generators() -> ArrayVec<Generator, MOST_GENERATORS>
    ensures { result.items ≡ record { name = codes "G1"; section = 0; power = 4000 }
        ∷ record { name = codes "G2"; section = 1; power = 2000 }
        ∷ record { name = codes "G3"; section = 1; power = 2000 } ∷ [] }
{
    let mut generators = ArrayVec::new();
    generators.push(generator(b"G1", 0, 4_000));
    generators.push(generator(b"G2", 1, 2_000));
    generators.push(generator(b"G3", 1, 2_000));
    generators
}

/// 12000 kW on A.
pub(crate) fn one_generator() -> ArrayVec<Generator, MOST_GENERATORS>
    ensures { result.items ≡ record { name = codes "G1"; section = 0; power = 12000 } ∷ [] }
{
    let mut generators = ArrayVec::new();
    generators.push(generator(b"G1", 0, 12_000));
    generators
}

fn group(text: &[u8], members: &[Member]) -> Group
    requires name { IsTrue (is_name text.now) }
    requires few { length members.now ≤ 2 }
    ensures name { result.name ≡ text.now }
    ensures members { result.members.items ≡ members.now }
{
    let mut group = Group {
        name: name(text),
        members: ArrayVec::new(),
    };
    group.members.try_extend_from_slice(members).unwrap();
    group
}

/// Section A, the first generator, the third thruster, the first one, and the first one with
/// section A.
pub(crate) fn five_groups() -> ArrayVec<Group, MOST_GROUPS>
    ensures { result.items
        ≡ record { name = codes "GA"; members = record { items = Section 0 ∷ [] } }
        ∷ record { name = codes "GG"; members = record { items = GeneratorMember 0 ∷ [] } }
        ∷ record { name = codes "GP"; members = record { items = ThrusterMember 2 ∷ [] } }
        ∷ record { name = codes "GF"; members = record { items = ThrusterMember 0 ∷ [] } }
        ∷ record {
          name = codes "GFA";
          members = record { items = ThrusterMember 0 ∷ Section 0 ∷ [] };
        }
        ∷ [] }
{
    let mut groups = ArrayVec::new();
    groups.push(group(b"GA", &[Member::Section(0)]));
    groups.push(group(b"GG", &[Member::Generator(0)]));
    groups.push(group(b"GP", &[Member::Thruster(2)]));
    groups.push(group(b"GF", &[Member::Thruster(0)]));
    groups.push(group(b"GFA", &[Member::Thruster(0), Member::Section(0)]));
    groups
}

/// The first thruster alone.
pub(crate) fn one_group() -> ArrayVec<Group, MOST_GROUPS>
    ensures { result.items
        ≡ record { name = codes "GF"; members = record { items = ThrusterMember 0 ∷ [] } } ∷ [] }
{
    let mut groups = ArrayVec::new();
    groups.push(group(b"GF", &[Member::Thruster(0)]));
    groups
}
