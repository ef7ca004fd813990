//! Recursive emission: its pieces, the orders that keep the edges of a graph, array forms among them, and marks.
//!
//! - **emission::emission_order** (law): the strongly connected components of a part's statements, paired by the edges
//!   of a level or more, in topological order, are classes that recursive emission asks for at that level
//!   (`order_is_components`).
//!
//! **emission::emission_pieces** (laws): recursive emission as a relation of a nest's statements, its edges and holds
//! (`AreEmitted`, `IsEmission`). As shapes the pieces are what `nest_order::orders` calls emitted
//! (`pieces_are_emitted`): each statement stands once, in its own loops, and the order of the instances keeps the edges
//! (`emission::emission_order`). The block of the pieces is defined here; what it does is
//! `emission::emission_meaning`'s.
//!
//! **emission::graph_edges** (laws), for nests of at most seven loops round a statement: edges of a nest's graph lead
//! between its statements, carried by a common loop or forward in the text (`edges_lead_in_nest`); so emission by the
//! graph keeps its edges (`graph_emission_order`).
//!
//! **emission::graph_orders** (laws): the edges of the dependence graph of a nest of loops and statements alone, as
//! orders have them, stand for each two instances that may touch a common cell of which one is written
//! (`graph_has_edges`): what `nest_order::runs` asks of edges. So a dropped vector is no loss, by the graph's promise
//! on drops. The level that orders see of an edge is the one that is listed (`arcs_are_edges`).
//!
//! **emission::emission_forms** (laws), for nests of loops and statements alone, also under guards: the pieces that are
//! emitted for a nest are, as statements, loops from 1 by 1 in which a statement's array form stands in the place of
//! its further loops (`pieces_are_written`); each such form stands for one statement on which no flow or output
//! dependence of its own is at work there, and does what the statement's instances do where these may store all at once
//! (`forms_are_lone`). Asked of the subscripts (`AreRegular`): where nothing forbids array form, a left subscript in
//! which a loop stands moves with the loop, and guard and right side are regular, as canonical text is; of holds, that
//! each is listed (`AreAllHolds`); of made arrays, that they are as large as guarded statements ask
//! (`HaveGuardedNames`).
//!
//! **emission::emission_meaning** (law): for such a nest with its facts, where its sequential run goes on, what is
//! emitted for it by its dependence graph and all its holds goes on as well with arrays as values, and leaves the same
//! store but for the loop variables (`emission_keeps_meaning`).
//!
//! **A WHERE looks at subscripts where its mask is false too.** That the statements without a guard name cells, which
//! the hold BOUNDS may rest on, is known from the nest's run alone; it says nothing of a store, and so is handed down
//! to the laws on forms, which speak of every store.
//!
//! **emission::emission_marks** (laws): in what is emitted for a nest of loops and statements alone, by edges of the
//! nest and any holds, each statement is marked once, as its level has it (`emission_is_marked`), and two statements
//! stand in one loop of a level exactly where they are in one component there (`emission_keeps_together`). Components
//! are those of the textbook: at level 1 all statements that lead to one another by edges, at each further level those
//! of the component before that still do by edges that no loop outside carries.
//!
//! **What is alone is said by walks over edges, level by level.** `AreComponents` (emission::emission_pieces) says
//! which classes the code takes, by orders of pairs of places. The law of marks says it in the words of the textbook:
//! reachability both ways, at each level within the component of the level before. So a reader of the third promise
//! needs neither classes nor their order.
//!
//! **Marks are looked for in the tree.** `marked_in` lists the marked statements of any block with the loops and
//! conditions round each, and `bodies_at` the bodies of its loops by level; neither knows how the block was made.
//!
//! **Emission is a relation on pieces.** One definition serves the text and the law of orders. Laws of graph edges ask
//! for at most seven loops round a statement, as a direction vector has seven places.
#![tactic(auto)]

pub mod emission_causes;
pub mod emission_forms;
pub mod emission_marks;
pub mod emission_meaning;
pub mod emission_order;
pub mod emission_pieces;
pub mod graph_edges;
pub mod graph_orders;
pub mod nest_emission;
