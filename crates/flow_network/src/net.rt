ghost use Rattle.std.specs.Prelude.{◌≡◌, ◌<◌, ◌≤◌, pos, length};
ghost use Rattle.flow_network.specs.Nets.{Shape, State, IsArc, IsNetwork, HasReducedCosts, IsNextBelow, reduced_cost, tail_of};
ghost use Rattle.flow_network.specs.Moves.{IsPushed, IsRaised, MayRaise, StaysInRange};

/// A residual flow network.
///
/// Nodes are the numbers below `nodes()`. Each arc has a twin, with the ends exchanged and the negated cost; what is
/// pushed along an arc can be pushed back along its twin. The reduced cost of an arc is its cost, plus the potential of
/// its tail, minus that of its head. Every network keeps that an arc with capacity left has a reduced cost of at
/// least 0, and that the excesses sum to 0. So if no excess is left, the flow has the least cost: `laws::balanced_is_least`
/// (Ahuja, Magnanti and Orlin 1993, "Network Flows", section 9.3).
///
/// Neither `push` nor `raise` changes the nodes, the arcs, their ends, twins and costs, or what the network was made from.
pub trait FlowNet {
    /// Its nodes and arcs.
    ghost shape: { Self → Shape };

    /// Its residuals, excesses and potentials.
    ghost state: { Self → State };

    /// Two networks that were made from the same things.
    ghost same_origin: { Self → Self → Type 0 };

    /// How many nodes there are.
    fn nodes(&self) -> u32
        ensures { result ≡ (shape self.now).nodes };

    /// The arc of the greatest number that starts at a node.
    fn first_out(&self, node: u32) -> Option<u32>
        requires { node < (shape self.now).nodes }
        ensures { IsNextBelow (shape self.now) node (shape self.now).arcs result };

    /// The arc of the next lower number that starts where this one does. So `first_out` and then `next_out` name each
    /// arc that starts at a node once.
    fn next_out(&self, arc: u32) -> Option<u32>
        requires { IsArc (shape self.now) arc }
        ensures { IsNextBelow (shape self.now) (tail_of (shape self.now) arc) arc result };

    /// The node where an arc starts.
    fn tail(&self, arc: u32) -> u32
        requires { IsArc (shape self.now) arc }
        ensures { result ≡ tail_of (shape self.now) arc };

    /// The node where an arc ends.
    fn head(&self, arc: u32) -> u32
        requires { IsArc (shape self.now) arc }
        ensures { result ≡ (shape self.now).head arc };

    /// The arc's twin.
    fn twin(&self, arc: u32) -> u32
        requires { IsArc (shape self.now) arc }
        ensures { result ≡ (shape self.now).twin arc };

    /// The cost of a unit that is pushed along an arc.
    fn cost(&self, arc: u32) -> i64
        requires { IsArc (shape self.now) arc }
        ensures { result ≡ (shape self.now).cost arc };

    /// The residual capacity of an arc: how much can still be pushed along it.
    fn residual(&self, arc: u32) -> u64
        requires { IsArc (shape self.now) arc }
        ensures { result ≡ (state self.now).residual arc };

    /// How much a node has above what it needs; a number below 0 is a deficit.
    fn excess(&self, node: u32) -> i64
        requires { node < (shape self.now).nodes }
        ensures { result ≡ (state self.now).excess node };

    /// The potential of a node.
    fn potential(&self, node: u32) -> i64
        requires { node < (shape self.now).nodes }
        ensures { result ≡ (state self.now).potential node };

    /// Moves an amount along an arc of reduced cost 0: from its residual to its twin's, and from the excess of its tail
    /// to that of its head.
    fn push(&mut self, arc: u32, amount: u64)
        requires arc { IsArc (shape self.old) arc }
        requires tight { reduced_cost (shape self.old) (state self.old) arc ≡ pos 0 }
        requires room { amount ≤ (state self.old).residual arc }
        ensures shape { shape self.new ≡ shape self.old }
        ensures pushed { IsPushed (shape self.old) arc amount (state self.old) (state self.new) }
        ensures origin { same_origin self.old self.new };

    /// Adds to the potential of each node its amount. Each arc with capacity left has to have a reduced cost of at least
    /// 0 afterwards, and no potential may be above `MAX_POTENTIAL` on either side.
    fn raise(&mut self, amounts: &[i64])
        requires count { length amounts.now ≡ (shape self.old).nodes }
        requires kept { MayRaise (shape self.old) (state self.old) amounts.now }
        requires within { StaysInRange (shape self.old) (state self.old) amounts.now }
        ensures shape { shape self.new ≡ shape self.old }
        ensures raised { IsRaised (shape self.old) amounts.now (state self.old) (state self.new) }
        ensures origin { same_origin self.old self.new };

    /// The shape is that of a network.
    ghost is_network: { (x : Self) → IsNetwork (shape x) };

    /// The kept fact: reduced costs of at least 0, and excesses that sum to 0.
    ghost has_reduced_costs: { (x : Self) → HasReducedCosts (shape x) (state x) };

    ghost origin_stays: { (x : Self) → same_origin x x };

    ghost origin_follows: { (x y z : Self) → same_origin x y → same_origin y z → same_origin x z };
}
