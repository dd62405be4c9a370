//! Values of the variables.
use sdcv_base::Seq;

/// The value of each variable: that of variable v stands at the place v - 1.
#[derive(Debug, Drop)]
pub struct Model {
    pub values: Seq<bool>,
}
