//! The part of the script of a page that finds and goes to what a reader asks for.

/// Finds symbols and states, goes to states by keys, and draws every state and conflict before the
/// page is printed.
pub(crate) const FINDING: &str = r##"
document.title = data.conflicts.length ? `Conflicts of ${data.start}` : `Tables of ${data.start}`;
document.getElementById("title").textContent = document.title;
const counted = (all, one, more) => `${all.length || "no"} ${all.length === 1 ? one : more}`;
const section = (id, text) => linked(id, "", text);
const conflictsTold = counted(data.conflicts, "conflict", "conflicts");
document.getElementById("summary").append(
  section("states", counted(data.states, "state", "states")), ", ",
  section("productions", counted(data.productions, "production", "productions")), ", ",
  counted(data.terminals, "terminal", "terminals"), ", ",
  data.conflicts.length ? section("conflicts", conflictsTold) : conflictsTold);

const find = document.getElementById("find");
const wanted = document.getElementById("wanted");
const found = document.getElementById("found");
const count = document.getElementById("count");
const names = [...new Set([...data.productions.map((p) => p.nonterminal),
  ...data.productions.flatMap((p) => p.symbols.flatMap((s) => s.nonterminal ?? []))])].sort();
const symbols = [...data.terminals.map((terminal) => ({ terminal })),
  ...names.map((nonterminal) => ({ nonterminal }))];
const ruleTexts = data.productions.map((p) => [p.number, ruleText(p).toLowerCase()]);

// A symbol that was found: where it leads, and the productions that have it.
function foundSymbol(s) {
  const text = symbolText(s);
  const to = [...(reached.get(text) ?? [])].sort((a, b) => a - b);
  const uses = data.productions.filter((p) => p.symbols.some((it) => symbolText(it) === text));
  return part("li", "", symbol(s), to.length ? " leads to" : " leads nowhere",
    ...some(to, (n) => link(n)), uses.length ? ", and is in" : "",
    ...some(uses, (p) => linked(`p${p.number}`, "", `production ${p.number}`)));
}
// The end of the input, with the states that reduce on it and the conflicts on it.
function foundEnd() {
  const has = (it) => it.tokens.includes(null);
  const states = data.states.filter((s) => s.reductions.some(has));
  const ats = [...data.conflicts.keys()].filter((at) => has(data.conflicts[at]));
  return part("li", "", token(null), " is the end of the input. It is reduced on in",
    ...some(states, (s) => link(s.number)), ats.length ? ", with" : "", ...some(ats, conflictLink));
}
// What a number is of: "state 5", "conflict 5", "production 5", or 5 alone.
function foundNumber(text) {
  const [, kind, digits] = /^(?:(state|conflict|production) )?(\d+)$/i.exec(text) ?? [];
  const number = Number(digits ?? NaN);
  const is = (it) => !kind || kind.toLowerCase() === it;
  return [
    ...(is("state") && stateOf.has(number) ? [link(number)] : []),
    ...(is("conflict") && data.conflicts[number - 1] ? [conflictLink(number - 1)] : []),
    ...(is("production") && production.has(number)
      ? [linked(`p${number}`, "", `Production ${number}`)] : []),
  ].map((it) => part("li", "", it));
}
// The productions whose text has the text, with `->` or an arrow.
function foundRules(text) {
  const wanted = text.replace("→", "->").replace(/\s+/g, " ").toLowerCase();
  if (!/[\s>]/.test(wanted)) return [];
  const fitting = ruleTexts.filter(([, it]) => it.includes(wanted));
  return fitting.map(([number]) => () => part("li", "", ruleLink(number)));
}
function search() {
  const text = wanted.value.trim();
  const rank = (s) => ([text, `"${text}"`].includes(symbolText(s)) ? 0 : 1);
  const fits = (s) => symbolText(s).toLowerCase().includes(text.toLowerCase());
  const fitting = text ? symbols.filter(fits).sort((a, b) => rank(a) - rank(b)) : [];
  const ends = text && "eof".startsWith(text.toLowerCase()) ? [foundEnd] : [];
  const numbers = foundNumber(text);
  const others = [...foundRules(text), ...fitting.map((s) => () => foundSymbol(s)), ...ends];
  const all = numbers.length + others.length;
  found.replaceChildren(...numbers, ...others.slice(0, MOST).map((it) => it()));
  found.hidden = !all;
  const cut = others.length > MOST ? `, the first ${MOST} are shown` : "";
  count.textContent = text ? `${all || "none"} found${cut}` : "";
}
wanted.addEventListener("input", search);
find.addEventListener("submit", (event) => {
  event.preventDefault();
  found.querySelector("a")?.click();
});

function show(it) {
  const folds = it.closest("details");
  if (folds) folds.open = true;
  draw(it.previousElementSibling);
  draw(it);
  it.scrollIntoView();
  it.focus({ preventScroll: true });
}
// Where a link leads: a conflict stands with the first one by its cause.
function follow() {
  const [, kind, digits] = /^#([scp])(\d+)$/.exec(location.hash) ?? [];
  const number = kind === "c" ? (firstOf.get(digits - 1) ?? NaN) + 1 : digits;
  const it = kind && document.getElementById(`${kind}${number}`);
  if (it) requestAnimationFrame(() => show(it));
}
window.addEventListener("hashchange", follow);
follow();

// Goes to the state or conflict beside the one where the reader is, or to the first state.
function step(side) {
  const every = [...document.querySelectorAll("article")];
  const here = document.activeElement.closest("article");
  const next = here ? every[every.indexOf(here) + side] : document.querySelector(".state");
  if (next) location.hash = `#${next.id}`;
}
document.addEventListener("keydown", (event) => {
  if (event.ctrlKey || event.metaKey || event.altKey) return;
  if (event.key === "Escape" && find.contains(document.activeElement)) {
    wanted.value = "";
    search();
    document.activeElement.blur();
  } else if (document.activeElement !== wanted) {
    if (event.key === "/") {
      event.preventDefault();
      wanted.focus();
      wanted.select();
    }
    if (event.key === "j") step(1);
    if (event.key === "k") step(-1);
  }
});
window.addEventListener("beforeprint", () => [...waiting.keys()].forEach(draw));
"##;
