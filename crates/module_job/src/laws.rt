//! Laws of the definitions, each the contract of a function without a body.
ghost use Rattle.module_job.specs.Keys.{BytesDetermineNumbers, NumbersDetermineShapes};
ghost use Rattle.module_job.specs.Laws.{JobEqualityDecides, JobIsPlacedShape, ShapeEqualityDecides};

/// States that two [`Job`](crate::Job)s are equal exactly if contracts see the same of both, and so two
/// [`Shape`](crate::Shape)s.
#[tactic(auto, using(crate::proofs::EqualJobs::jobs_decide, crate::proofs::EqualJobs::shapes_decide))]
pub fn equality_is_of_content()
    ensures jobs { JobEqualityDecides }
    ensures shapes { ShapeEqualityDecides }
{}

/// States that a job is its shape, placed where its box lies and over its wires and gates of the circuit.
#[tactic(auto, using(crate::proofs::ShapeParts::job_is_placed_shape))]
pub fn job_is_placed_shape()
    ensures { JobIsPlacedShape }
{}

/// States that shapes that differ have different numbers, and that different numbers have different bytes.
///
/// If two such shapes have one [`key`](crate::Shape::key), these bytes are a collision of SHA-256.
#[tactic(auto, using(crate::proofs::TellingShapes::numbers_told, crate::proofs::TellingShapes::shapes_tell))]
pub fn shape_bytes_are_injective()
    ensures numbers { NumbersDetermineShapes }
    ensures bytes { BytesDetermineNumbers }
{}
