// The structs of the C interface, and the answers of the calls as its numbers. `include/gantry.h` declares these structs for C; names,
// field order and layouts are fixed.

#![tactic(auto)]

ghost use Rattle.std.specs.Prelude.{ℕ, ◌≡◌};
ghost use Rattle.refusal.specs.Refusal.{refusal_number};
ghost use Rattle.insphere.specs.Sphere.{Answered, Refused as TestRefused};
ghost use Rattle.mesh.specs.Start.{Accepted as StartAccepted, Refused as StartRefused};
ghost use Rattle.locate.specs.Locate.{Cell, Refused as LocateRefused};
ghost use Rattle.insertion.specs.Inserted.{Accepted, Refused};
ghost use Rattle.insertion.specs.Listed.{Refused as ListRefused, ended_by};
ghost use Rattle.insertion.specs.Looked.{Reported, Refused as LookRefused};
ghost use Rattle.corrections.specs.Corrections.{By, Refused as NotCorrected};
ghost use Rattle.segment.specs.Call.{Count, Refused as NotCounted};
ghost use Rattle.nodefile.specs.Read.{Nodes, Refused as ReadRefused};
ghost use Rattle.nodefile.specs.Write.{Bytes, Refused as WriteRefused};
ghost use Rattle.gantry_numbers.specs.Numbers.{as_answer, started_of, inserted_of, looked_of, listed_of, located_of, counted_of, corrected_of, tested_of, read_of, written_of};

use corrections::Correction;
use insertion::{Insertion, Insertions, Report};
use insphere::Sphere;
use mesh::Mesh;
use nodefile::Header;
use refusal::Refusal;

// In each answer, refusal is 0 where the call was accepted, and a field that a refusal leaves without meaning is 0.

#[repr(C)]
#[derive(Clone, Copy)]
pub struct GantryStarted {
    pub refusal: u8,
    pub mesh: Mesh,
}

#[repr(C)]
#[derive(Clone, Copy)]
pub struct GantryInserted {
    pub refusal: u8,
    pub mesh: Mesh,
    pub point: u32,
    pub before: u32,
    pub after: u32,
    pub made: u32,
    pub least: f64,
}

#[repr(C)]
#[derive(Clone, Copy)]
pub struct GantryLooked {
    pub refusal: u8,
    pub point: u32,
    pub before: u32,
    pub after: u32,
    pub made: u32,
    pub least: f64,
}

// The place of the refused node, or how many went in.
#[repr(C)]
#[derive(Clone, Copy)]
pub struct GantryListed {
    pub refusal: u8,
    pub mesh: Mesh,
    pub place: u32,
}

#[repr(C)]
#[derive(Clone, Copy)]
pub struct GantryLocated {
    pub refusal: u8,
    pub cell: u32,
}

// How many cells are listed.
#[repr(C)]
#[derive(Clone, Copy)]
pub struct GantryCounted {
    pub refusal: u8,
    pub count: u32,
}

#[repr(C)]
#[derive(Clone, Copy)]
pub struct GantryCorrected {
    pub refusal: u8,
    pub x: i32,
    pub y: i32,
    pub z: i32,
}

// Answers 1 inside, 2 outside.
#[repr(C)]
#[derive(Clone, Copy)]
pub struct GantrySphere {
    pub refusal: u8,
    pub answer: u8,
    pub t: f64,
}

#[repr(C)]
#[derive(Clone, Copy)]
pub struct GantryRead {
    pub refusal: u8,
    pub x: u32,
    pub y: u32,
    pub z: u32,
    pub count: u32,
}

#[repr(C)]
#[derive(Clone, Copy)]
pub struct GantryWritten {
    pub refusal: u8,
    pub bytes: u32,
}

// Of a refused start, since no record goes in.
const NO_MESH: Mesh = Mesh {
    x: 0,
    y: 0,
    z: 0,
    points: 0,
    cells: 0,
    chain: 0,
    used: 0,
};

// A refusal, or the number that stands for it outside.
pub trait Numbered: Copy {
    ghost value: { Self → ℕ };

    fn number(self) -> u8
        ensures { result ≡ value self };
}

impl Numbered for u8 {
    ghost value = { λ n. n };

    fn number(self) -> u8 {
        self
    }
}

impl Numbered for Refusal {
    ghost value = { refusal_number };

    fn number(self) -> u8 {
        Refusal::number(self)
    }
}

impl<R: Numbered> From<Result<Mesh, R>> for GantryStarted {
    ghost from_gives = { λ answer r. r ≡ started_of (as_answer StartAccepted StartRefused R.value answer) };

    #[tactic(auto, unfolding(crate::specs::Numbers::started_of))]
    fn from(answer: Result<Mesh, R>) -> GantryStarted {
        match answer {
            Ok(mesh) => GantryStarted { refusal: 0, mesh },
            Err(refusal) => GantryStarted {
                refusal: refusal.number(),
                mesh: NO_MESH,
            },
        }
    }
}

// Of a call that was handed the record: a refusal leaves it as it was.
#[tactic(auto, unfolding(crate::specs::Numbers::inserted_of))]
pub fn inserted<R: Numbered>(mesh: Mesh, answer: Result<Insertion, R>) -> GantryInserted
    ensures { result ≡ inserted_of mesh (as_answer (λ i. Accepted i.mesh i.report) Refused R.value answer) }
{
    match answer {
        Ok(Insertion { mesh, report }) => GantryInserted {
            refusal: 0,
            mesh,
            point: report.point,
            before: report.before,
            after: report.after,
            made: report.made,
            least: report.least,
        },
        Err(refusal) => GantryInserted {
            refusal: refusal.number(),
            mesh,
            point: 0,
            before: 0,
            after: 0,
            made: 0,
            least: 0.0,
        },
    }
}

impl<R: Numbered> From<Result<Report, R>> for GantryLooked {
    ghost from_gives = { λ answer r. r ≡ looked_of (as_answer Reported LookRefused R.value answer) };

    #[tactic(auto, unfolding(crate::specs::Numbers::looked_of))]
    fn from(answer: Result<Report, R>) -> GantryLooked {
        match answer {
            Ok(seen) => GantryLooked {
                refusal: 0,
                point: seen.point,
                before: seen.before,
                after: seen.after,
                made: seen.made,
                least: seen.least,
            },
            Err(refusal) => GantryLooked {
                refusal: refusal.number(),
                point: 0,
                before: 0,
                after: 0,
                made: 0,
                least: 0.0,
            },
        }
    }
}

// As `inserted`, of a list of nodes.
#[tactic(auto, unfolding(crate::specs::Numbers::listed_of))]
pub fn listed<R: Numbered>(mesh: Mesh, answer: Result<Insertions<R>, R>) -> GantryListed
    ensures { result ≡ listed_of mesh (as_answer (λ l. ended_by R.value l.mesh l.accepted l.stopped) ListRefused R.value answer) }
{
    match answer {
        Ok(list) => GantryListed {
            refusal: list.stopped.map_or(0, R::number),
            mesh: list.mesh,
            place: list.accepted,
        },
        Err(refusal) => GantryListed {
            refusal: refusal.number(),
            mesh,
            place: 0,
        },
    }
}

impl<R: Numbered> From<Result<u32, R>> for GantryLocated {
    ghost from_gives = { λ answer r. r ≡ located_of (as_answer Cell LocateRefused R.value answer) };

    #[tactic(auto, unfolding(crate::specs::Numbers::located_of))]
    fn from(answer: Result<u32, R>) -> GantryLocated {
        match answer {
            Ok(cell) => GantryLocated { refusal: 0, cell },
            Err(refusal) => GantryLocated {
                refusal: refusal.number(),
                cell: 0,
            },
        }
    }
}

impl<R: Numbered> From<Result<u32, R>> for GantryCounted {
    ghost from_gives = { λ answer r. r ≡ counted_of (as_answer Count NotCounted R.value answer) };

    #[tactic(auto, unfolding(crate::specs::Numbers::counted_of))]
    fn from(answer: Result<u32, R>) -> GantryCounted {
        match answer {
            Ok(count) => GantryCounted { refusal: 0, count },
            Err(refusal) => GantryCounted {
                refusal: refusal.number(),
                count: 0,
            },
        }
    }
}

impl<R: Numbered> From<Result<Correction, R>> for GantryCorrected {
    ghost from_gives = { λ answer r. r ≡ corrected_of (as_answer By NotCorrected R.value answer) };

    #[tactic(auto, unfolding(crate::specs::Numbers::corrected_of))]
    fn from(answer: Result<Correction, R>) -> GantryCorrected {
        match answer {
            Ok(correction) => GantryCorrected {
                refusal: 0,
                x: correction.x,
                y: correction.y,
                z: correction.z,
            },
            Err(refusal) => GantryCorrected {
                refusal: refusal.number(),
                x: 0,
                y: 0,
                z: 0,
            },
        }
    }
}

impl<R: Numbered> From<Result<Sphere, R>> for GantrySphere {
    ghost from_gives = { λ answer r. r ≡ tested_of (as_answer Answered TestRefused R.value answer) };

    #[tactic(auto, unfolding(crate::specs::Numbers::tested_of, crate::specs::Numbers::sphere_of))]
    fn from(answer: Result<Sphere, R>) -> GantrySphere {
        match answer {
            Ok(Sphere::Inside(t)) => GantrySphere {
                refusal: 0,
                answer: 1,
                t,
            },
            Ok(Sphere::Outside(t)) => GantrySphere {
                refusal: 0,
                answer: 2,
                t,
            },
            Err(refusal) => GantrySphere {
                refusal: refusal.number(),
                answer: 0,
                t: 0.0,
            },
        }
    }
}

impl<R: Numbered> From<Result<Header, R>> for GantryRead {
    ghost from_gives = { λ answer r. r ≡ read_of (as_answer Nodes ReadRefused R.value answer) };

    #[tactic(auto, unfolding(crate::specs::Numbers::read_of))]
    fn from(answer: Result<Header, R>) -> GantryRead {
        match answer {
            Ok(header) => GantryRead {
                refusal: 0,
                x: header.x,
                y: header.y,
                z: header.z,
                count: header.count,
            },
            Err(refusal) => GantryRead {
                refusal: refusal.number(),
                x: 0,
                y: 0,
                z: 0,
                count: 0,
            },
        }
    }
}

impl<R: Numbered> From<Result<u32, R>> for GantryWritten {
    ghost from_gives = { λ answer r. r ≡ written_of (as_answer Bytes WriteRefused R.value answer) };

    #[tactic(auto, unfolding(crate::specs::Numbers::written_of))]
    fn from(answer: Result<u32, R>) -> GantryWritten {
        match answer {
            Ok(bytes) => GantryWritten { refusal: 0, bytes },
            Err(refusal) => GantryWritten {
                refusal: refusal.number(),
                bytes: 0,
            },
        }
    }
}
