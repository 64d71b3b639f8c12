//! Steps of whole planes that pass over frozen blocks, and the marks after them.

ghost use Rattle.lanes.specs.Calm.{AreUnmarkedBlocksStable, HasRoomForBlockMarks, HasSameBlockMarkRoom};
ghost use Rattle.lanes.specs.Frozen.{AreBlocksFrozenIfFound};
ghost use Rattle.lanes.specs.Lanes.{HasWordsStrideRows, TurnsCellsOfPartition};
ghost use Rattle.lanes.specs.Live.{AreAllUnmarkedCellsDead, HasRoomForCellMarks, HasSameCellMarkRoom};
ghost use Rattle.std.specs.Prelude.{◌*◌};

use crate::block_marks::BlockMarks;
use crate::blocks::Partition;
use crate::frozen::FrozenBlocks;
use crate::live::LiveMarks;
use crate::planes::Planes;

impl FrozenBlocks {
    /// Marks the blocks of both partitions, but for the frozen ones.
    #[tactic(auto, using(crate::proofs::FrozenLemmas::room_found, crate::proofs::FrozenLemmas::active_stable))]
    pub fn mark_active_blocks(&self, planes: &Planes, marks: &mut BlockMarks)
        requires frozen_if_found { AreBlocksFrozenIfFound self.now planes.now }
        requires room { HasRoomForBlockMarks (planes.now.stride * planes.now.rows) marks.old }
        ensures unmarked_blocks_stable { AreUnmarkedBlocksStable marks.new planes.now }
        ensures same_room { HasSameBlockMarkRoom marks.old marks.new }
    {
        if self.is_found {
            planes.prove_planes_are_words();
            marks.set_to_complement_of(&self.marks);
        } else {
            marks.mark_all();
        }
    }

    /// Marks the cells that may be live, which those of the frozen and empty blocks are not.
    pub fn mark_live(&self, planes: &Planes, live: &mut LiveMarks)
        requires frozen_if_found { AreBlocksFrozenIfFound self.now planes.now }
        requires room { HasRoomForCellMarks (planes.now.stride * planes.now.rows) live.old }
        ensures unmarked_cells_dead { AreAllUnmarkedCellsDead live.new planes.now }
        ensures same_room { HasSameCellMarkRoom live.old live.new }
    {
        if self.is_found {
            planes.prove_planes_are_words();
            live.set_marks_to_not_both(&self.marks.odd, &self.empty);
        } else {
            live.mark_all();
        }
    }

    /// Turns the blocks of a partition, and passes over the frozen ones.
    #[tactic(auto, using(crate::proofs::FrozenLemmas::found_stable, crate::proofs::FieldLemmas::all_turned, crate::proofs::FrozenLemmas::still_frozen, crate::proofs::FrozenLemmas::all_may_turn))]
    #[inline(always)]
    pub fn step(&self, partition: Partition, planes: &mut Planes)
        requires frozen_if_found { AreBlocksFrozenIfFound self.now planes.old }
        ensures turned { TurnsCellsOfPartition partition planes.old planes.new }
        ensures size { HasWordsStrideRows planes.old.words planes.old.stride planes.old.rows
            planes.new }
        ensures frozen_if_found { AreBlocksFrozenIfFound self.now planes.new }
    {
        if self.is_found {
            planes.prove_planes_are_words();
            planes.step_between_marks(partition, self.marks.marks_of(partition));
            return;
        }
        match partition {
            Partition::Odd => planes.odd_step(),
            Partition::Even => planes.even_step(),
        }
    }
}
