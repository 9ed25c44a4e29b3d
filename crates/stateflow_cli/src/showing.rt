//! What the devices of a call show, for its clauses to name in one word.

ghost use Rattle.stateflow_cli.specs.Devices.{Devices, devices, source, sink, outside, store_disk};

use operator_graph::Watch;
use sf_outside::{Chooser, Disk, Files, Sink, Source};

/// What devices of these types show at a moment, in the order of the top call.
pub trait Shows<F, S, K, E, D, C, W> {
    ghost shown: { F → S → K → E → D → C → W → Devices };
}

/// A call on any devices. There is nothing to it but what it shows of them.
pub struct Call {}

impl<F: Files, S: Source, K: Sink, E: Sink, D: Disk, C: Chooser, W: Watch> Shows<
    F,
    S,
    K,
    E,
    D,
    C,
    W,
> for Call {
    ghost shown = { λ files input out err disk chooser watch. devices (F.content files) (F.faults files)
        (source (S.left input) (S.faults input)) (sink (K.held out) (K.handed out) (K.faults out)) (sink (E.held err) (E.handed err) (E.faults err))
        (outside (C.choices chooser) (W.told watch)) (store_disk (D.found disk) (D.faults disk) (D.mounts disk)) };
}
