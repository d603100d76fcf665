ghost use Rattle.std.specs.Prelude.{◌≡◌, Some};
ghost use Rattle.refusals.specs.Refusals.{by_layer, naming_node, naming_address, shown_refusal};

use crate::layer::Layer;
use std::fmt;

// The number of a refusal, its layer, and the node and the address that it names.
// The number is the rules' own, and scripts print it: the faults are the enums.
#[derive(Clone, Copy, Debug, PartialEq, Eq)]
pub struct Refusal {
    pub number: u64,
    pub layer: Layer,
    pub node: Option<u64>,
    pub address: Option<u64>,
}

impl Refusal {
    // It names no node and no address.
    pub fn new(layer: Layer, number: u64) -> Refusal
        ensures { result ≡ by_layer layer number }
    {
        Refusal {
            number,
            layer,
            node: None,
            address: None,
        }
    }

    pub fn with_node(self, node: u64) -> Refusal
        ensures { result ≡ naming_node node self }
    {
        Refusal {
            node: Some(node),
            ..self
        }
    }

    pub fn with_address(self, address: u64) -> Refusal
        ensures { result ≡ naming_address address self }
    {
        Refusal {
            address: Some(address),
            ..self
        }
    }
}

impl fmt::Display for Refusal {
    ghost output = { λ refusal. Some (shown_refusal refusal) };

    fn fmt<W: fmt::Write>(&self, f: &mut fmt::Formatter<W>) -> fmt::Result {
        write!(f, "refused, {}", self.number)?;
        if let Some(node) = self.node {
            write!(f, ", node {node}")?;
        }
        if let Some(address) = self.address {
            write!(f, ", address {address}")?;
        }
        Ok(())
    }
}
