//! One clock cycle in three values.
use net_model::Tern;
use sdcv_base::Seq;

/// A value for each register, for each input and for each net, in the order of the design's lists.
pub struct Cycle3 {
    pub bits: Seq<Tern>,
    pub ins: Seq<Tern>,
    pub nets: Seq<Tern>,
}

// Let go by a call of its own: whoever owns one proves nothing of how its parts are kept.
impl Drop for Cycle3 {
    fn drop(self) {
        let Cycle3 {
            bits: _bits,
            ins: _ins,
            nets: _nets,
        } = self;
    }
}
