//! Graphs with latches, read back from their AIGER texts and run step by step as the format says (AIGER 1.9).
use std::alloc::{AllocError, Global};

/// A graph as its text tells it: the counts of its first line, and the numbers of each line after that.
#[derive(Drop)]
pub struct Graph {
    pub inputs: usize,
    pub latches: usize,
    pub gates: usize,
    rows: Vec<Vec<u64>>,
}

// The numbers of a line.
fn numbers(alloc: Global, line: &str) -> Result<Vec<u64>, AllocError> {
    let mut all = Vec::new(alloc);
    for word in line.split(' ') {
        if let Ok(number) = word.parse::<u64>() {
            all.push(number)?;
        }
    }
    Ok(all)
}

/// The graph of a text, if its first line counts one bad literal and no output.
pub fn graph_of(alloc: Global, text: &str) -> Result<Option<Graph>, AllocError> {
    let mut rows = Vec::new(alloc);
    for line in text.lines() {
        rows.push(numbers(alloc, line)?)?;
    }
    let Some(first) = rows.first() else {
        return Ok(None);
    };
    let [_, inputs, latches, 0, gates, 1] = first.as_slice() else {
        return Ok(None);
    };
    let (inputs, latches, gates) = (*inputs as usize, *latches as usize, *gates as usize);
    Ok(Some(Graph {
        inputs,
        latches,
        gates,
        rows,
    }))
}

// The bits that a word spells.
fn bits_of(alloc: Global, word: &str) -> Result<Vec<bool>, AllocError> {
    let mut bits = Vec::new(alloc);
    for byte in word.as_bytes() {
        match byte {
            b'0' => bits.push(false)?,
            b'1' => bits.push(true)?,
            _ => {}
        }
    }
    Ok(bits)
}

// The bit of a literal: 2v is variable v, and 2v + 1 its complement.
fn bit(bits: &[bool], literal: u64) -> bool {
    let place = (literal / 2) as usize;
    let bit = bits.get(place).copied().unwrap_or(false);
    bit != (literal % 2 == 1)
}

impl Graph {
    // A latch whose reset is its own literal begins with the next of the given bits, and any other with 0.
    fn first(&self, alloc: Global, given: &[bool]) -> Result<Vec<bool>, AllocError> {
        let mut given = given.iter();
        let mut latches = Vec::new(alloc);
        for row in self
            .rows
            .iter()
            .skip(1)
            .skip(self.inputs)
            .take(self.latches)
        {
            let begins = match row.as_slice() {
                [own, _, reset] if own == reset => given.next().copied().unwrap_or(false),
                _ => false,
            };
            latches.push(begins)?;
        }
        Ok(latches)
    }

    // The bits of all variables: the constant 0, inputs, latches, and lines, each the conjunction of its two literals.
    fn settled(
        &self,
        alloc: Global,
        inputs: &[bool],
        latches: &[bool],
    ) -> Result<Vec<bool>, AllocError> {
        let mut bits = bits_of(alloc, "0")?;
        bits.extend_from_slice(inputs)?;
        bits.extend_from_slice(latches)?;
        let lines = self
            .rows
            .iter()
            .skip(2)
            .skip(self.inputs)
            .skip(self.latches);
        for row in lines {
            if let [_, left, right] = row.as_slice() {
                let both = bit(&bits, *left) && bit(&bits, *right);
                bits.push(both)?;
            }
        }
        Ok(bits)
    }

    // Whether the bad literal is 1.
    fn is_bad(&self, bits: &[bool]) -> bool {
        let mut rows = self
            .rows
            .iter()
            .skip(1)
            .skip(self.inputs)
            .skip(self.latches);
        match rows.next() {
            Some(row) => matches!(row.as_slice(), [bad] if bit(bits, *bad)),
            None => false,
        }
    }

    // A latch has the bit that its next literal had.
    fn next(&self, alloc: Global, bits: &[bool]) -> Result<Vec<bool>, AllocError> {
        let mut latches = Vec::new(alloc);
        for row in self
            .rows
            .iter()
            .skip(1)
            .skip(self.inputs)
            .take(self.latches)
        {
            if let [_, next, _] = row.as_slice() {
                latches.push(bit(bits, *next))?;
            }
        }
        Ok(latches)
    }

    /// The bad literal step by step, given the first bits of the registers and a word of input bits for each step.
    pub fn bads(&self, alloc: Global, first: &str, steps: &str) -> Result<String, AllocError> {
        let given = bits_of(alloc, first)?;
        let mut latches = self.first(alloc, &given)?;
        let mut bads = String::new(alloc);
        for step in steps.split(' ') {
            let inputs = bits_of(alloc, step)?;
            let bits = self.settled(alloc, &inputs, &latches)?;
            bads.push_str(if self.is_bad(&bits) { "1" } else { "0" })?;
            latches = self.next(alloc, &bits)?;
        }
        Ok(bads)
    }
}
