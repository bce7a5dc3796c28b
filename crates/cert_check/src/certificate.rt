//! Certificates, their steps, and the paths of a step.
use std::marker::Model;

/// A path in a graph, from a regular source up to the node of its step.
#[derive(Debug, Drop)]
pub struct NodePath {
    /// Its line in the text, counted from 1.
    pub line: u32,
    /// Its nodes. Each is a fan-in node of the next.
    pub nodes: Vec<u32>,
}

impl Model for NodePath {
    ghost use Rattle.cert_check.specs.CertificateValue.{PathValue};

    ghost Value = { PathValue };

    ghost view = { λ p. record { line = p.line; nodes = p.nodes.items } };
}

/// A step: the claim that an AND node has at least this depth in any cover, and the paths that show it.
#[derive(Debug, Drop)]
pub struct Step {
    /// Its line in the text, counted from 1.
    pub line: u32,
    /// The AND node, by its index.
    pub node: u32,
    /// The depth that is claimed for the node.
    pub claim: u32,
    /// One path for a claim of 1, and K + 1 paths for a greater claim.
    pub paths: Vec<NodePath>,
}

impl Model for Step {
    ghost use Rattle.cert_check.specs.CertificateValue.{StepValue};

    ghost Value = { StepValue };

    ghost view = { λ s. record { line = s.line; node = s.node; claim = s.claim; paths = s.paths.items } };
}

/// A certificate: a depth that every cover has at least, and the steps that show it, in ascending order of their nodes.
#[derive(Debug, Drop)]
pub struct Certificate {
    /// The depth, in levels of LUTs.
    pub depth: u32,
    /// The steps, in ascending order of their nodes.
    pub steps: Vec<Step>,
}

impl Model for Certificate {
    ghost use Rattle.cert_check.specs.CertificateValue.{CertificateValue};

    ghost Value = { CertificateValue };

    ghost view = { λ c. record { depth = c.depth; steps = c.steps.items } };
}
