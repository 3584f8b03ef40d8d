//! The script of a page.

/// Reads the data, and makes the parts of a page from texts alone. So no name is ever read as HTML.
pub(crate) const TREES: &str =
    r##"const data = JSON.parse(document.getElementById("data").textContent);
const production = new Map(data.productions.map((p) => [p.number, p]));
const stateOf = new Map(data.states.map((s) => [s.number, s]));
// Items, reductions and conflicts name the set of their tokens by its number. An item has `null` in
// its place if it has all tokens.
function putTokens(all) {
  for (const it of all) it.tokens = it.lookahead === null ? null : data.sets[it.lookahead];
}
for (const s of data.states) {
  putTokens(s.items);
  putTokens(s.reductions);
}
putTokens(data.conflicts);

function part(tag, name, ...kids) {
  const it = document.createElement(tag);
  if (name) it.className = name;
  it.append(...kids);
  return it;
}
// The parts of a text, in which a character that can't be seen stands as its number.
const visible = (text) => text.split(/([\p{C}\p{Z}])/u).map((piece, at) => {
  if (at % 2 === 0) return piece;
  const number = piece.codePointAt(0).toString(16).toUpperCase().padStart(4, "0");
  return part("span", "unseen", `U+${number}`);
});
// A literal that fits stands in one line.
const terminal = (text) =>
  part("span", text.length > 40 ? "terminal long" : "terminal", '"', ...visible(text), '"');
const nonterminal = (name) => part("span", "nonterminal", name);
const token = (t) => (t === null ? part("span", "", "Eof") : terminal(t));
const symbolText = (s) => ("terminal" in s ? `"${s.terminal}"` : s.nonterminal);
const symbol = (s) => ("terminal" in s ? terminal(s.terminal) : nonterminal(s.nonterminal));
const spaced = (parts) => parts.flatMap((it) => [" ", it]);
const dot = () => part("span", "dot", "•");

function linked(to, name, ...parts) {
  const it = part("a", name, ...parts);
  it.href = `#${to}`;
  return it;
}
const link = (number, text = `State ${number}`) => linked(`s${number}`, "", text);
// At most so many parts of a list, and how many more there are.
const MOST = 40;
function some(all, shown) {
  const more = all.length > MOST ? [` and ${all.length - MOST} more`] : [];
  return [...spaced(all.slice(0, MOST).map(shown)), ...more];
}
function rule(number) {
  const p = production.get(number);
  return [nonterminal(p.nonterminal), " →", ...spaced(p.symbols.map(symbol))];
}
const ruleText = (p) => [p.nonterminal, "->", ...p.symbols.map(symbolText)].join(" ");
const ruleLink = (number) => linked(`p${number}`, "rule", ...rule(number));
function dotted(number, place) {
  const p = production.get(number);
  const parts = p.symbols.map(symbol);
  parts.splice(place, 0, dot());
  return [nonterminal(p.nonterminal), " →", ...spaced(parts)];
}

// The tree of an example: its reductions lie one in the other, and each holds the dot.
function tree(example) {
  const leaves = example.symbols.map((s, at) => {
    const leaf = s === null ? part("span", "none", "ε") : symbol(s);
    if (at >= example.place) leaf.classList.add("ahead");
    return leaf;
  });
  leaves.splice(example.place, 0, dot());
  let inner = null;
  let from = 0;
  let to = 0;
  for (const r of example.reductions) {
    const end = r.end + 1;
    const kids = inner
      ? [...leaves.slice(r.start, from), inner, ...leaves.slice(to, end)]
      : leaves.slice(r.start, end);
    inner = part("span", "node", part("span", "name nonterminal", r.nonterminal),
      part("span", "kids", ...kids));
    from = r.start;
    to = end;
  }
  const whole = inner ? [...leaves.slice(0, from), inner, ...leaves.slice(to)] : leaves;
  const it = part("div", "tree", ...whole);
  it.setAttribute("role", "img");
  it.setAttribute("aria-label", told(example));
  it.tabIndex = 0;
  return it;
}
// An example in words.
function told(example) {
  const words = (symbols) => symbols.filter((s) => s !== null).map(symbolText);
  const read = words(example.symbols.slice(0, example.place));
  const ahead = words(example.symbols.slice(example.place));
  const names = example.reductions.map((r) => r.nonterminal);
  return `${[...read, "•", ...ahead].join(" ")}, in ${names.join(" in ")}`;
}
"##;

/// Draws conflicts and states when they come into view.
pub(crate) const DRAWING: &str = r##"
// Of each state, the symbol that leads to it, which is one, and the states from which it does; and
// by the text of a symbol, the states to which it leads.
const into = new Map(data.states.map((s) => [s.number, { by: null, from: [] }]));
const reached = new Map();
function enter(from, by, to) {
  const it = into.get(to);
  it.by = by;
  it.from.push(from);
  const text = symbolText(by);
  if (!reached.has(text)) reached.set(text, new Set());
  reached.get(text).add(to);
}
for (const s of data.states) {
  for (const [terminal, to] of Object.entries(s.shifts)) enter(s.number, { terminal }, to);
  for (const [nonterminal, to] of Object.entries(s.gotos)) enter(s.number, { nonterminal }, to);
}
const conflictsIn = new Map();
data.conflicts.forEach((c, at) => {
  if (!conflictsIn.has(c.state)) conflictsIn.set(c.state, []);
  conflictsIn.get(c.state).push(at);
});
// Conflicts have one cause if they have the same actions by the same items.
const all = data.causes.map((it) => ({
  ...it,
  states: new Set(it.conflicts.map((at) => data.conflicts[at].state)),
  tokens: new Set(it.conflicts.flatMap((at) => data.conflicts[at].tokens)),
}));
// Of each production, the states that reduce by it.
const reducedIn = new Map(data.productions.map((p) => [p.number, []]));
for (const s of data.states) {
  for (const r of s.reductions) reducedIn.get(r.production).push(s.number);
}

const line = (...parts) => part("div", "line", ...parts);
// The tokens of an item are `null` if it has all.
const isWhole = (tokens) => tokens === null || tokens.length > data.terminals.length;
// Items of lane tables have all tokens, which says nothing.
const itemsAreWhole = data.states.every((s) => s.items.every((i) => isWhole(i.tokens)));
function lookahead(tokens) {
  return part("span", "tokens",
    ...(isWhole(tokens) ? [" on each token"] : [" on", ...spaced(tokens.map(token))]));
}
function titled(title, lines) {
  return lines.length ? [part("h4", "", title), ...lines] : [];
}
const conflictLink = (at) => linked(`c${at + 1}`, "told", `Conflict ${at + 1}`);
const conflictLine = (at) =>
  line(conflictLink(at), " on", ...spaced(data.conflicts[at].tokens.map(token)));
function drawState(s, it) {
  const isKernel = (i) =>
    i.dot > 0 || (s.number === 0 && production.get(i.production).nonterminal === data.start);
  const item = (i) =>
    line(...dotted(i.production, i.dot), ...(itemsAreWhole ? [] : [lookahead(i.tokens)]));
  const reduction = (r) => line("reduce ", ruleLink(r.production), lookahead(r.tokens));
  const edges = (all, shown) =>
    Object.entries(all).map(([name, to]) => line(shown(name), " to ", link(to)));
  const { by, from } = into.get(s.number);
  const conflicts = conflictsIn.get(s.number) ?? [];
  it.append(part("div", "columns",
    part("div", "", ...titled("Kernel items", s.items.filter(isKernel).map(item)),
      ...titled("Items of the closure", s.items.filter((i) => !isKernel(i)).map(item))),
    part("div", "", ...titled("Conflicts", conflicts.map(conflictLine)),
      ...titled("Reductions", s.reductions.map(reduction)),
      ...titled("Shifts", edges(s.shifts, terminal)),
      ...titled("Gotos", edges(s.gotos, nonterminal))),
    part("div", "", ...titled("From", from.length
      ? [line(symbol(by), " from", ...some(from, (n) => link(n)))] : []))));
}
function drawAction(action) {
  const head = "shift" in action
    ? line("shift ", terminal(action.shift), " to ", link(action.state))
    : line("reduce ", ruleLink(action.reduce));
  const none = () => [line("no example: only the start symbol leads here")];
  const items = action.items.flatMap((i) => [
    line(...dotted(i.production, i.dot)),
    ...(i.examples.length ? i.examples.map(tree) : none()),
  ]);
  return part("div", "", head, ...items);
}
// One input with two derivations, or how the search for one ended.
const SEARCHES = { exhausted: "all was searched", cut: "the search was cut" };
function drawWitness(cause) {
  if (cause.search !== "found") {
    return [part("p", "", `No input with two derivations was found: ${SEARCHES[cause.search]}.`)];
  }
  const texts = cause.derivations.map((it) => part("div", "witness", it));
  return [part("p", "", "One input, two derivations:"), ...texts];
}
// A cause of conflicts, with the examples of its first conflict.
function drawCause(cause, it) {
  const [first, ...others] = cause.conflicts;
  it.append(part("p", "", "in", ...some([...cause.states], (n) => link(n)), ", on",
    ...spaced([...cause.tokens].map(token))));
  it.append(...drawWitness(cause));
  if (others.length) {
    const state = data.conflicts[first].state;
    it.append(part("p", "", `Drawn is conflict ${first + 1}, in `, link(state),
      ". These are by the same items:", ...some(others, (at) => `${at + 1}`)));
  }
  it.append(part("div", "actions", ...data.conflicts[first].actions.map(drawAction)));
}
// A line of the index of causes: the first conflict, and the two actions.
function causeLine(cause) {
  const c = data.conflicts[cause.conflicts[0]];
  const [one, other] = c.actions.map((a) =>
    ("shift" in a ? ["shift ", terminal(a.shift)] : ["reduce ", ...rule(a.reduce)]));
  return part("li", "", conflictLink(cause.conflicts[0]), ": ", ...one, ", or ", ...other);
}
function drawProduction(p) {
  const states = reducedIn.get(p.number);
  const it = line(`${p.number} `, ...rule(p.number),
    part("span", "tokens", ...(states.length ? [" reduced in", ...some(states, (n) => link(n))]
      : [" reduced in no state"])));
  it.id = `p${p.number}`;
  it.tabIndex = -1;
  return it;
}

const waiting = new Map();
function draw(it) {
  const todo = waiting.get(it);
  if (!todo) return;
  waiting.delete(it);
  eyes.unobserve(it);
  todo();
}
const eyes = new IntersectionObserver((seen) => {
  for (const s of seen) if (s.isIntersecting) draw(s.target);
}, { rootMargin: "0px 0px 400px" });
function place(where, id, name, title, todo) {
  const it = part("article", name, part("h3", "", title));
  it.id = id;
  it.tabIndex = -1;
  it.setAttribute("aria-label", title);
  waiting.set(it, () => todo(it));
  where.append(it);
  eyes.observe(it);
}
// Adds parts to a section, which is shown if it has any.
function fill(id, parts) {
  document.getElementById(id).append(...parts);
  document.getElementById(id).hidden = !parts.length;
}
// The causes after the first ones are folded.
const SHOWN = 20;
function drawCauses(all) {
  const [front, folded] = [document.createDocumentFragment(), part("details", "")];
  all.forEach((cause, at) => {
    const number = cause.conflicts[0] + 1;
    const others = cause.conflicts.length - 1;
    const title = `Conflict ${number}${others ? `, and ${others} by the same cause` : ""}`;
    place(at < SHOWN ? front : folded, `c${number}`, "conflict bad", title,
      (it) => drawCause(cause, it));
  });
  if (!folded.childElementCount) return [front];
  folded.prepend(part("summary", "", `${all.length - SHOWN} more causes`));
  return [front, folded];
}
// The number of the first conflict by the same cause.
const firstOf = new Map(all.flatMap((it) => it.conflicts.map((at) => [at, it.conflicts[0]])));
if (all.length > 1) {
  const title = `${all.length} causes of ${data.conflicts.length} conflicts`;
  const index = part("details", "", part("summary", "", title),
    part("ol", "index", ...all.map(causeLine)));
  index.open = all.length <= SHOWN;
  document.getElementById("conflicts").append(index);
}
fill("conflicts", all.length ? drawCauses(all) : []);
// The productions, which are folded if there are many.
function drawProductions() {
  const all = [...data.productions].sort((a, b) => a.number - b.number).map(drawProduction);
  if (all.length <= 2 * SHOWN) return all;
  return [part("details", "", part("summary", "", `${all.length} productions`), ...all)];
}
fill("productions", drawProductions());
if (itemsAreWhole && data.states.length) {
  document.getElementById("states").append(part("p", "",
    "Items show no tokens, since each item has all. The lookaheads stand at the reductions."));
}
const states = document.createDocumentFragment();
for (const s of data.states) {
  place(states, `s${s.number}`, conflictsIn.has(s.number) ? "state bad" : "state",
    `State ${s.number}`, (it) => drawState(s, it));
}
fill("states", data.states.length ? [states] : []);
"##;
