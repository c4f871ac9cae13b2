//! What the page does when a reader steps, in JavaScript.

/// Steps by keys and buttons, and the picture's row of the step.
pub(crate) const VIEW: &str =
    "// The picture's row of the step, or of the last one before it that has a row.
function rowAt(count) {
  for (let place = count; place > 0; place -= 1) {
    if (run.events[place - 1].row) return run.events[place - 1].row;
  }
  return 0;
}

function shadeFrom(row) {
  const veil = part('veil');
  veil.setAttribute('y', row ? row + 9 : 70);
  part('cursor').setAttribute('y', row - 17);
  part('cursor').setAttribute('height', row ? 26 : 0);
  const frame = part('picture');
  frame.scrollTop = (row / drawing.viewBox.baseVal.height) * drawing.clientHeight -
    frame.clientHeight / 2;
}

function show(count) {
  step = Math.max(0, Math.min(count, run.events.length));
  const event = run.events[step - 1];
  const state = stateAfter(run, step);
  const old = stateAfter(run, Math.max(0, step - 1));
  part('at').value = step;
  part('count').textContent = 'step ' + step + ' of ' + run.events.length;
  part('says').textContent = event ? event.says : 'Nothing has happened yet.';
  part('prints').textContent = event && event.prints ? 'prints: ' + event.prints : '';
  const cards = state.sites.map((_, place) => cardOf(state, old, place + 1, event));
  part('sites').replaceChildren(...cards);
  part('back').disabled = part('first').disabled = step === 0;
  part('next').disabled = part('last').disabled = step === run.events.length;
  shadeFrom(rowAt(step));
  if (step === run.events.length) pause();
}

function go(count) {
  show(count);
  history.replaceState(null, '', '#' + step);
}

function pause() {
  clearInterval(playing);
  playing = null;
  part('play').textContent = 'Play';
}

function play() {
  if (playing) return pause();
  if (step === run.events.length) go(0);
  if (step === run.events.length) return undefined;
  part('play').textContent = 'Pause';
  playing = setInterval(() => go(step + 1), 1000);
  return undefined;
}

const KEYS = {
  ArrowRight: () => go(step + 1),
  ArrowLeft: () => go(step - 1),
  Home: () => go(0),
  End: () => go(run.events.length),
  ' ': play
};

function onKey(pressed) {
  if (pressed.altKey || pressed.ctrlKey || pressed.metaKey || !KEYS[pressed.key]) return;
  if (pressed.key === ' ' && pressed.target.tagName === 'BUTTON') return;
  pressed.preventDefault();
  KEYS[pressed.key]();
}

// A band behind the row of the step, and a veil over what comes later.
function addShades() {
  const shapes = [['veil', null], ['cursor', drawing.querySelector('.up')]];
  for (const [id, next] of shapes) {
    const shape = document.createElementNS('http://www.w3.org/2000/svg', 'rect');
    shape.id = id;
    shape.setAttribute('width', '100%');
    shape.setAttribute('height', '100%');
    drawing.insertBefore(shape, next);
  }
}

function begin() {
  addShades();
  part('at').max = run.events.length;
  part('at').addEventListener('input', () => go(Number(part('at').value)));
  part('first').addEventListener('click', () => go(0));
  part('back').addEventListener('click', () => go(step - 1));
  part('play').addEventListener('click', play);
  part('next').addEventListener('click', () => go(step + 1));
  part('last').addEventListener('click', () => go(run.events.length));
  document.addEventListener('keydown', onKey);
  window.addEventListener('hashchange', () => show(Number(location.hash.slice(1)) || 0));
  show(Number(location.hash.slice(1)) || 0);
}

begin();
";
