//! Equality of shapes and jobs: by whole content.

ghost use Rattle.std.specs.Cmp.{partial_equiv_from_equiv};
ghost use Rattle.module_job.specs.Equality.{job_equivalence, same_job, same_shape, shape_equivalence};

use crate::job::Job;
use crate::shape::Shape;

impl PartialEq for Shape {
    ghost eq = { same_shape };

    ghost laws = { partial_equiv_from_equiv shape_equivalence };

    fn eq(&self, other: &Shape) -> bool {
        let width = self.width == other.width;
        let height = self.height == other.height;
        let steps = self.steps == other.steps;
        let wiring = self.wiring == other.wiring;
        let starts = self.starts == other.starts;
        let demands = self.demands == other.demands;
        let edges = self.edges == other.edges;
        let halos = self.halos == other.halos;
        let stops = self.stops == other.stops;
        let kept = self.kept == other.kept;
        width & height & steps & wiring & (starts & demands) & (edges & halos) & (stops & kept)
    }
}

impl Eq for Shape {
    ghost laws = { shape_equivalence };
}

impl PartialEq for Job {
    ghost eq = { same_job };

    ghost laws = { partial_equiv_from_equiv job_equivalence };

    fn eq(&self, other: &Job) -> bool {
        let x = self.x == other.x;
        let y = self.y == other.y;
        let wires = self.wires == other.wires;
        let gates = self.gates == other.gates;
        let shape = *self.shape == *other.shape;
        x & y & wires & gates & shape
    }
}

impl Eq for Job {
    ghost laws = { job_equivalence };
}
