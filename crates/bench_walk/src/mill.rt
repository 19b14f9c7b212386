ghost use Rattle.std.specs.Prelude.{◌≡◌, ◌+◌, ◌≤◌, [], ◌∷◌, Ok, Err, OnOk, OnErr, if◌then◌else◌};
ghost use Rattle.pe_base.specs.declared.stop.Stop.TheVariants.{Overflow};
ghost use Rattle.pe_base.specs.Calls.Told.{Tells};
ghost use Rattle.pe_io.specs.Sink.{told_by};
ghost use Rattle.pe_base.specs.Acts.Moments.{IsTraversal, IsBelowRoot};
ghost use Rattle.bench_walk.specs.Mill.{is_last, raised, entered_line, sum_of, erased_by, refined_by};

use pe_base::{Dim, Effects, Event, Fields, Place, Stop};
use pe_io::{Line, Sink, SinkFailed};
use pe_mapping::Mapping;
use pe_stacks::{CellRec, Corners, Vertex};
use std::alloc::AllocError;

/// What a mill is for: the dimension, the greatest level, and a number that its sums begin with.
#[derive(Clone, Copy)]
pub struct Wheel {
    /// The dimension.
    pub dim: Dim,
    /// The greatest level.
    pub greatest: u8,
    /// The number.
    pub number: u16,
}

/// A mapping that refines and erases by sums of positions, and prints how many cells were entered.
#[derive(Drop)]
pub struct Mill<'a, K> {
    wheel: Wheel,
    entered: i64,
    sink: &'a mut K,
}

impl<'a, K: Sink> Mill<'a, K> {
    /// The mapping of a mill, which writes to a sink.
    pub fn new(wheel: Wheel, sink: &'a mut K) -> Mill<'a, K>
        ensures wheel { result.wheel ≡ wheel }
        ensures sink { result.sink.now ≡ sink.old }
        ensures same_sink { result.sink.ghost_name ≡ sink.entry.ghost_name }
    {
        Mill {
            wheel,
            entered: 0,
            sink,
        }
    }
}

// Prints how many cells were entered up to a traversal.
fn print_entered<K: Sink>(traversal: u64, entered: i64, sink: &mut K) -> Result<(), SinkFailed>
    ensures told { Tells (entered_line traversal (entered ∷ [])) (told_by K.text K.writes K.faults sink.old) (told_by K.text K.writes K.faults sink.new) result }
{
    let mut line = Line::of("print");
    line.number(traversal);
    line.signed(entered);
    line.end(sink)
}

// One more, or an overflow.
#[inline]
fn raise(fields: &mut Fields) -> Result<(), Stop>
    ensures answer { result ≡ (if is_last fields.old.a then Err Overflow else Ok tt) }
    ensures raised { OnOk result (fields.new.a ≡ raised fields.old.a) }
    ensures same { OnErr result (fields.new ≡ fields.old) }
{
    let n = fields.get(0);
    if n == i64::MAX {
        return Err(Stop::Overflow);
    }
    fields.set(0, n + 1);
    Ok(())
}

impl Wheel {
    // Asks a vertex to refine, and to erase, by the sum of its position.
    #[inline]
    fn ask(self, traversal: u64, at: &Place, vertex: &mut Vertex<Fields>)
        requires traversal { IsTraversal traversal }
        requires place { IsBelowRoot at.now }
        ensures { vertex.new ≡ record vertex.old {
          state = erased_by (sum_of self.number at.now + traversal) vertex.old.kind
              (refined_by (sum_of self.number at.now) at.now.level self.greatest vertex.old.kind vertex.old.state);
        } }
    {
        let [x, y, z, w] = at.pos;
        let sum = x + 2 * y + 3 * z + 4 * w + u64::from(self.number);
        if sum % 4 == 0 {
            vertex.refine(at.level, self.greatest);
        }
        if (sum + traversal) % 9 == 0 {
            vertex.erase();
        }
    }
}

impl<K> Effects for Mill<'_, K> {
    type Plan = Wheel;

    ghost use Rattle.bench_walk.specs.Mill.{mill_rules};
    ghost use Rattle.bench_walk.specs.Law.{mill_lawful};

    ghost rules = { mill_rules };

    ghost lawful = { mill_lawful };
}

impl<K: Sink> Mapping for Mill<'_, K> {
    type V = Fields;

    type C = Fields;

    ghost use Rattle.std.specs.Prelude.{true};
    ghost use Rattle.bench_walk.specs.Counting.{fields_numbers};
    ghost use Rattle.pe_io.specs.Sink.{told_by};

    ghost numbers = { fields_numbers };

    ghost held = { λ it. record {
      plan = it.wheel;
      list = it.entered ∷ [];
      told = told_by K.text K.writes K.faults it.sink.now;
      dim = it.wheel.dim;
      sure = true;
      lent = it.sink.ghost_name ∷ [];
    } };

    #[inline]
    fn fresh_v(&mut self) -> Result<Fields, AllocError> {
        Ok(Fields::zero())
    }

    #[inline]
    fn fresh_c(&mut self) -> Result<Fields, AllocError> {
        Ok(Fields::zero())
    }

    fn plain_event(&mut self, event: Event, traversal: u64) -> Result<(), Stop> {
        match event {
            Event::EndIteration => match print_entered(traversal, self.entered, self.sink) {
                Ok(()) => Ok(()),
                Err(_) => Err(Stop::Sink),
            },
            _ => Ok(()),
        }
    }

    #[inline]
    fn vertex_event(
        &mut self,
        event: Event,
        traversal: u64,
        at: &Place,
        vertex: &mut Vertex<Fields>,
        _parents: &mut Corners<Fields>,
        _parent: &mut CellRec<Fields>,
    ) -> Result<(), Stop> {
        match event {
            Event::TouchVertexLastTime => match raise(vertex.payload_mut()) {
                Ok(()) => {
                    self.wheel.ask(traversal, at, vertex);
                    Ok(())
                }
                Err(stop) => Err(stop),
            },
            _ => Ok(()),
        }
    }

    #[inline]
    fn cell_event(
        &mut self,
        event: Event,
        _traversal: u64,
        _at: &Place,
        cell: &mut CellRec<Fields>,
        _corners: &mut Corners<Fields>,
        _parents: &mut Corners<Fields>,
        _parent: &mut CellRec<Fields>,
    ) -> Result<(), Stop> {
        match event {
            Event::EnterCell => match raise(cell.payload_mut()) {
                Ok(()) => {
                    if self.entered == i64::MAX {
                        return Err(Stop::Overflow);
                    }
                    self.entered += 1;
                    Ok(())
                }
                Err(stop) => Err(stop),
            },
            _ => Ok(()),
        }
    }
}
